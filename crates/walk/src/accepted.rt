//! Entries of which it is asked whether they are accepted, and nothing else: an index and a salvage need no record.
#![tactic(auto, unfolding(crate::specs::Accepted::accepted_of))]

ghost use Rattle.std.specs.Prelude.{◌≡◌};
ghost use Rattle.walk.specs.Mapped.{map_ok};
ghost use Rattle.walk.specs.Accepted.{accepted_of, long, room, short, never_zero};

use crate::Entry;
use refusal::{Mode, Refusal};
use std::marker::PhantomData;

/// A kind of entry that can tell whether an entry's own bytes are accepted with no record made of them.
pub trait Accepts<'a>: Entry<'a> {
    /// Refuses what `read` refuses, alike.
    fn accepts(own: &'a [u8], mode: Mode) -> Result<(), Refusal>
        ensures { result ≡ map_ok (λ r. tt) (Self.read mode own.entry) };
}

/// An accepted entry of a kind, of which nothing was kept but its length.
#[derive(Clone, Copy, Debug)]
pub struct Accepted<E> {
    /// The entry's length in bytes.
    pub length: usize,
    kind: PhantomData<E>,
}

impl<'a, E: Accepts<'a>> Entry<'a> for Accepted<E> {
    ghost HEADER = { E.HEADER };

    ghost read = { accepted_of E.length_of E.read };

    ghost length_of = { λ r. r.length };

    ghost four = { E.four };

    ghost long = { long E.length_of E.read E.long };

    ghost room = { room E.length_of E.read E.room };

    ghost short = { short E.length_of E.read E.short };

    ghost never_zero = { never_zero E.length_of E.read E.never_zero };

    fn header() -> usize
        ensures { result ≡ E.HEADER }
    {
        E::header()
    }

    #[inline(always)]
    fn read(own: &'a [u8], mode: Mode) -> Result<Self, Refusal> {
        E::accepts(own, mode)?;
        Ok(Accepted {
            length: own.len(),
            kind: PhantomData,
        })
    }
}
