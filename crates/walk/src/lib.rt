//! Walks an upload of entries of one kind: a cursor by value, and a walker that holds the upload.
#![tactic(auto, unfolding(crate::specs::Step::step_at))]

ghost use Rattle.std.specs.Prelude.{◌≡◌, ◌<◌, ◌+◌, ◌≤◌, ℕ, List, Result, Ok, Err, length, false};
ghost use Rattle.std.specs.Borrow.{Bor};
ghost use Rattle.std.specs.Iterator.{item_count};
ghost use Rattle.refusal.specs.declared.Mode.{Mode};
ghost use Rattle.refusal.specs.declared.Refusal.{Refusal};
ghost use Rattle.refusal.specs.declared.Refusal.TheVariants.{TooShort};
ghost use Rattle.entry.specs.Walk.{OneWalk};
ghost use Rattle.entry.specs.Bounded.{bounded_walk};
ghost use Rattle.walk.specs.Zero.{is_zero};
ghost use Rattle.walk.specs.Step.{parse_of, step_at};
ghost use Rattle.walk.specs.Steps.{StepsMeant};
ghost use Rattle.walk.specs.Direct.{ParsesMeant};
ghost use Rattle.walk.specs.Pieces.{piece_at, pieces, walker_left, NextGives};
ghost use Rattle.walk.specs.Theorems.{cursor_of, StepsRead, PiecesAreSteps, PiecesTellSteps, BehindIsUnread};

mod accepted;
mod unread;

pub use accepted::{Accepted, Accepts};
use entry::Walked;
use refusal::{Mode, Refusal};
use std::marker::PhantomData;
pub use unread::Unread;

/// A kind of entry, by what reading an entry's own bytes gives. What is read may be parts of them.
pub trait Entry<'a>: Drop {
    // the header's length
    ghost HEADER: { ℕ };

    // what an entry's own bytes give, in a mode
    ghost read: { Mode → Bor (List ℕ) → Result Self Refusal };

    // the entry's length, as the record carries it
    ghost length_of: { Self → ℕ };

    fn header() -> usize
        ensures { result ≡ HEADER };

    fn read(own: &'a [u8], mode: Mode) -> Result<Self, Refusal>
        ensures { result ≡ read mode own.entry };

    // more than the claim itself
    ghost four: { 4 < HEADER };

    ghost long: { (mode : Mode) (e : Bor (List ℕ)) (r : Self) → read mode e ≡ Ok r → length_of r ≡ length e.now };

    ghost room: { (mode : Mode) (e : Bor (List ℕ)) (r : Self) → read mode e ≡ Ok r → HEADER ≤ length e.now };

    ghost short: { (mode : Mode) (e : Bor (List ℕ)) → length e.now < HEADER → read mode e ≡ Err (TooShort HEADER (length e.now)) };

    // 10 is the walk's own
    ghost never_zero: { (mode : Mode) (e : Bor (List ℕ)) (why : Refusal) → read mode e ≡ Err why → is_zero why ≡ false };
}

/// Reads the entry at the start of some bytes.
#[tactic(auto, unfolding(entry::specs::Entry::claim_of))]
pub fn parse<'a, E: Entry<'a>>(bytes: &'a [u8], mode: Mode) -> Result<E, Refusal>
    ensures { result ≡ parse_of E.HEADER (E.read mode) bytes.entry }
{
    let size = entry::claim(bytes, E::header())?;
    E::read(&bytes[..size], mode)
}

/// The place in the upload where the next step begins.
#[derive(Clone, Copy, Debug)]
pub struct Cursor {
    /// Bytes from the start of the upload.
    pub at: usize,
}

/// A step and the cursor after it: `None` at the end of the upload.
#[derive(Clone, Copy, Drop)]
pub struct Stepped<E> {
    /// What the step read, or why it read nothing.
    pub answer: Option<Result<E, Refusal>>,
    /// Where the next step begins. It moves by what the entry claims, read or not.
    pub cursor: Cursor,
}

impl Cursor {
    /// The start of an upload.
    pub fn new() -> Self
        ensures { result.at ≡ 0 }
    {
        Cursor { at: 0 }
    }

    /// Makes one step (docs/FORMAT.md, "Walking"): the entry here, or the refusal of what stands here, and the cursor after it. A claim of 0 is refused with 2, and the cursor stays.
    #[tactic(auto, using(entry::proofs::Claims::room_at), unfolding(crate::specs::Step::step_at))]
    pub fn step<'a, E: Entry<'a>>(self, bytes: &'a [u8], mode: Mode) -> Stepped<E>
        ensures { result ≡ step_at (E.read mode) bytes.entry self.at }
    {
        let claimed = entry::claim_at(bytes, self.at);
        let answer = match claimed.size {
            None => None,
            Some(Ok(size)) => Some(E::read(&bytes[self.at..self.at + size], mode)),
            Some(Err(why)) => Some(Err(why)),
        };
        Stepped {
            answer,
            cursor: Cursor { at: claimed.next },
        }
    }

    /// Walks on from here, in at most so many steps, whatever the kind of the entries.
    pub fn walk(self, bytes: &[u8], allowed: usize) -> Walked
        ensures { result ≡ bounded_walk bytes.now self.at allowed }
    {
        entry::bounded_walk(bytes, self.at, allowed)
    }

    // The piece here, before the end of the upload.
    #[inline(always)]
    #[tactic(auto, using(entry::proofs::Claims::room_at, entry::proofs::Claims::claim_there), unfolding(crate::specs::Pieces::piece_at))]
    fn piece<'a, E: Entry<'a>>(self, bytes: &'a [u8], mode: Mode) -> Piece<E>
        requires { self.at < length bytes.now }
        ensures { result ≡ piece_at (E.read mode) bytes.entry self.at }
    {
        let start = self.at;
        let claimed = entry::claim_at(bytes, start);
        if claimed.next == start {
            return Piece {
                start,
                end: bytes.len(),
                answer: Err(Refusal::ZeroEntryLength),
            };
        }
        let answer = match claimed.size.unwrap() {
            Ok(size) => E::read(&bytes[start..start + size], mode),
            Err(why) => Err(why),
        };
        Piece {
            start,
            end: claimed.next,
            answer,
        }
    }
}

/// What stands from a place of the upload up to the next: an entry that was read, or why none was.
#[derive(Clone, Copy, Drop)]
pub struct Piece<E> {
    /// Where it begins, in bytes from the start of the upload.
    pub start: usize,
    /// Where the next one begins.
    pub end: usize,
    /// The entry, or why there is none.
    pub answer: Result<E, Refusal>,
}

/// The upload with the cursor on it. It gives the upload's pieces in order: a zero claim, which a step would stay at, is refused with 10 and takes all that is left.
#[derive(Clone, Copy, Drop)]
pub struct Walker<'a, E> {
    /// The upload.
    pub bytes: &'a [u8],
    /// The mode in which entries are read.
    pub mode: Mode,
    /// Where the next piece begins.
    pub cursor: Cursor,
    kind: PhantomData<E>,
}

impl<'a, E: Entry<'a>> Walker<'a, E> {
    /// A walker at the start of an upload.
    #[tactic(auto, using(crate::proofs::Left::few_pieces))]
    pub fn new(bytes: &'a [u8], mode: Mode) -> Self
        ensures upload { result.bytes ≡ bytes.entry }
        ensures mode_asked { result.mode ≡ mode }
        ensures start { result.cursor.at ≡ 0 }
        ensures all { walker_left E.read result ≡ pieces (E.read mode) bytes.entry }

        // no more of them than bytes
        ensures few { length (walker_left E.read result) ≤ length bytes.now }
    {
        Walker {
            bytes,
            mode,
            cursor: Cursor::new(),
            kind: PhantomData,
        }
    }

    /// The place where the next step begins.
    pub fn position(&self) -> usize
        ensures { result ≡ self.now.cursor.at }
    {
        self.cursor.at
    }

    /// Makes one step: nothing at the end of the upload. At a zero claim, which is refused as too short, the walker stays.
    pub fn step(&mut self) -> Option<Result<E, Refusal>>
        ensures gives { result ≡ (step_at (E.read self.old.mode) self.old.bytes self.old.cursor.at).answer }
        ensures moves { self.new ≡ record self.old { cursor = (step_at (E.read self.old.mode) self.old.bytes self.old.cursor.at).cursor } }
    {
        let stepped = self.cursor.step(self.bytes, self.mode);
        self.cursor = stepped.cursor;
        stepped.answer
    }
}

impl<'a, E: Entry<'a>> Iterator for Walker<'a, E> {
    type Item = Piece<E>;

    ghost next_gives = { NextGives E.read };

    ghost remaining = { item_count (walker_left E.read) };

    #[inline(always)]
    #[tactic(auto, using(crate::proofs::Left::none_left, crate::proofs::Left::one_left, crate::proofs::Left::fewer_left))]
    fn next(&mut self) -> Option<Piece<E>> {
        if self.bytes.len() <= self.cursor.at {
            return None;
        }
        let piece = self.cursor.piece(self.bytes, self.mode);
        self.cursor = Cursor { at: piece.end };
        Some(piece)
    }
}

// The theorems. Each is the contract of a function that does nothing, so that none goes unnoticed if its proof does.

/// A step iterated by its own cursor is the one walk.
pub fn one_walk<'a, E: Entry<'a>>()
    ensures { (mode : Mode) → OneWalk (step_at (E.read mode)) cursor_of }
{}

/// A step is finished at the end, refuses with 5, 2 or 3 and goes to the end, or moves by the claim and gives what the entry's own bytes give: 2 where they are fewer than a header.
pub fn steps_meant<'a, E: Entry<'a>>()
    ensures { (mode : Mode) → StepsMeant E.HEADER (E.read mode) }
{}

/// A direct parse refuses with 5, 2, 3 or 4, or gives what the bytes of the claim give.
pub fn parses_meant<'a, E: Entry<'a>>()
    ensures { (mode : Mode) → ParsesMeant E.HEADER (E.read mode) }
{}

/// A step that gives a record gives what a direct parse of the entry's bytes gives, and moves by the record's length.
pub fn steps_read<'a, E: Entry<'a>>()
    ensures { (mode : Mode) → StepsRead E.HEADER (E.read mode) E.length_of }
{}

/// The pieces that a walker gives are those at the places where the walk's steps begin, in order.
pub fn pieces_are_steps<'a, E: Entry<'a>>()
    ensures { (mode : Mode) → PiecesAreSteps (E.read mode) }
{}

/// A piece tells what the step at its place gives, and ends where that moves to; where the step stays, at a zero claim, the piece takes all that is left.
pub fn pieces_tell_steps<'a, E: Entry<'a>>()
    ensures { (mode : Mode) → PiecesTellSteps (E.read mode) }
{}

/// A direct parse reads the bytes that the entry claims, and none behind them.
pub fn behind_is_unread<'a, E: Entry<'a>>()
    ensures { (mode : Mode) → BehindIsUnread (E.read mode) E.HEADER }
{}
