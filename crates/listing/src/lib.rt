//! The listing of hexadecimal lines, an upload each: a row of text for each entry of an upload and for each refused step.
#![tactic(auto)]

ghost use Rattle.std.specs.Prelude.{◌≡◌, ◌≢◌, ◌↔◌, true, ◌≤◌, ◌<◌, ◌++◌, IfSome, IfOk, IfErr, OnOk, OnErr, List, take, [], ◌+◌, ◌-◌, ℕ, Option, codes, length, string_bytes};
ghost use Rattle.std.specs.List.{flat_map};
ghost use Rattle.std.specs.Io.{ReadsAtMost, WritesAtMost};
ghost use Rattle.std.specs.Io.KnownBytes.{Appends, Consumes, IsAtEnd, Keeps};
ghost use Rattle.std.specs.IoError.{error_kind};
ghost use Rattle.refusal.specs.Refusal.{figures_of};
ghost use Rattle.symbol.specs.Symbol.{symbol_of};
ghost use Rattle.walk.specs.Pieces.{pieces};
ghost use Rattle.listing.specs.declared.Failure.TheVariants.{Output};
ghost use Rattle.listing.specs.Row.{refusal_row};
ghost use Rattle.listing.specs.Meaning.{ListingMeant};
ghost use Rattle.listing.specs.Listing.{row, line_text, header, listing, listing_of_ended, longest, most, most_number, AppendsFront, Stopped, Reading};

pub mod row;

use memchr::memchr;
use refusal::{Mode, Refusal};
use row::{EntryRow, RefusalRow};
use std::alloc::{AllocError, Global};
use std::io;
use std::io::{ErrorKind, Read, Write};
use symbol::{AdsSymbolInfo, Symbols};
use walk::Piece;

// The digits of the longest frame, 16,384 bytes.
const LONGEST: usize = 32768;

// How many bytes are read at once.
const PART: usize = 8192;

// After so many bytes no more are read: the numbers of their lines fit, and so do those of one part more.
const MOST: u64 = u64::MAX - 8192;

/// Why a listing stopped: the reader failed, more was read than lines can be counted in, or the writer failed or memory ran out.
#[derive(Debug, Drop)]
pub enum Failure {
    Input(io::Error),
    Endless,
    Output(io::Error),
}

// Only the reader's errors are told apart.
impl From<io::Error> for Failure {
    ghost from_gives = { λ e r. r ≡ Output e };

    fn from(why: io::Error) -> Self {
        Failure::Output(why)
    }
}

// A write that no signal interrupts.
#[tactic(auto, using(crate::proofs::Rows::kept_appends))]
fn write_on<W: Write>(bytes: &[u8], output: &mut W) -> io::Result<usize>
    ensures bound { WritesAtMost result bytes.now }
    ensures ok { IfOk result (λ n. Appends (W.contents output.old) (W.contents output.new) (take n bytes.now)) }
    ensures err { OnErr result (Keeps (W.contents output.old) (W.contents output.new)) }
{
    for _ in 0..u64::MAX {
        match output.write(bytes) {
            Ok(n) => return Ok(n),
            Err(why) => {
                if !is_interrupted(&why) {
                    return Err(why);
                }
            }
        }
    }
    Err(io::Error::from(ErrorKind::TimedOut))
}

// Writes all of some bytes, as `write_all` does, which says nothing of what an error leaves: here some of them are then written, from the first on.
fn put<W: Write>(bytes: &[u8], output: &mut W) -> io::Result<()>
    ensures all { OnOk result (Appends (W.contents output.old) (W.contents output.new) bytes.now) }
    ensures front { OnErr result (AppendsFront (W.contents output.old) (W.contents output.new) bytes.now) }
{
    let mut rest = bytes;
    while rest.len() > 0 {
        match write_on(rest, output) {
            Ok(n) => {
                if n == 0 {
                    return Err(io::Error::from(ErrorKind::WriteZero));
                }
                rest = &rest[n..];
            }
            Err(why) => return Err(why),
        }
    }
    Ok(())
}

#[tactic(auto, unfolding(crate::specs::Listing::row))]
fn row_text(piece: Piece<AdsSymbolInfo<'_>>, line: u64, alloc: Global) -> Result<String, AllocError>
    ensures { IfOk result (λ text. string_bytes text ≡ row line piece.entry) }
{
    let start = piece.start;
    match piece.answer {
        Ok(symbol) => {
            let name = row::spell(symbol.name, alloc)?;
            let type_name = row::spell(symbol.type_name, alloc)?;
            let row = EntryRow {
                line,
                start,
                info: &symbol,
                name: name.as_str(),
                type_name: type_name.as_str(),
            };
            format!(in alloc; "{row}\n")
        }
        Err(why) => {
            let row = RefusalRow {
                line,
                start,
                figures: why.figures(),
            };
            format!(in alloc; "{row}\n")
        }
    }
}

#[tactic(auto, using(crate::proofs::Rows::no_front))]
fn write_row<W: Write>(
    piece: Piece<AdsSymbolInfo<'_>>,
    line: u64,
    alloc: Global,
    output: &mut W,
) -> io::Result<()>
    ensures all { OnOk result (Appends (W.contents output.old) (W.contents output.new) (row line piece.entry)) }
    ensures front { OnErr result (AppendsFront (W.contents output.old) (W.contents output.new) (row line piece.entry)) }
{
    let text = row_text(piece, line, alloc)?;
    put(text.as_bytes(), output)
}

fn write_frame<W: Write>(
    frame: &[u8],
    mode: Mode,
    line: u64,
    alloc: Global,
    output: &mut W,
) -> io::Result<()>
    ensures all { OnOk result (Appends (W.contents output.old) (W.contents output.new)
        (flat_map (row line) (pieces (symbol_of mode) frame.entry))) }
    ensures front { OnErr result (AppendsFront (W.contents output.old) (W.contents output.new)
        (flat_map (row line) (pieces (symbol_of mode) frame.entry))) }
{
    for piece in Symbols::new(frame, mode) {
        write_row(piece, line, alloc, output)?;
    }
    Ok(())
}

fn bad_line_text(line: u64, alloc: Global) -> Result<String, AllocError>
    ensures { IfOk result (λ text. string_bytes text ≡ refusal_row line 0 (figures_of Refusal.BadHexadecimal) ++ codes "\n") }
{
    let row = RefusalRow {
        line,
        start: 0,
        figures: Refusal::BadHexadecimal.figures(),
    };
    format!(in alloc; "{row}\n")
}

#[tactic(auto, using(crate::proofs::Rows::no_front))]
fn write_bad_line<W: Write>(line: u64, alloc: Global, output: &mut W) -> io::Result<()>
    ensures all { OnOk result (Appends (W.contents output.old) (W.contents output.new)
        (refusal_row line 0 (figures_of Refusal.BadHexadecimal) ++ codes "\n")) }
    ensures front { OnErr result (AppendsFront (W.contents output.old) (W.contents output.new)
        (refusal_row line 0 (figures_of Refusal.BadHexadecimal) ++ codes "\n")) }
{
    let text = bad_line_text(line, alloc)?;
    put(text.as_bytes(), output)
}

// The line that is being read: what is above the longest that is good tells nothing more.
#[derive(Drop)]
struct Line {
    number: u64,
    digits: Vec<u8>,
}

impl Line {
    #[tactic(auto, using(crate::proofs::Rows::no_front))]
    fn write<W: Write>(&self, mode: Mode, alloc: Global, output: &mut W) -> io::Result<()>
        ensures all { OnOk result (Appends (W.contents output.old) (W.contents output.new)
            (line_text mode self.now.number self.now.digits.items)) }
        ensures front { OnErr result (AppendsFront (W.contents output.old) (W.contents output.new)
            (line_text mode self.now.number self.now.digits.items)) }
    {
        if self.digits.len() > LONGEST {
            return write_bad_line(self.number, alloc, output);
        }
        match hex::decode(alloc, self.digits.as_slice()) {
            Ok(frame) => write_frame(&frame, mode, self.number, alloc, output),
            Err(hex::FromHexError::OutOfMemory) => Err(io::Error::from(AllocError)),
            Err(_) => write_bad_line(self.number, alloc, output),
        }
    }

    // Adds the digits of a line that goes on.
    fn hold(&mut self, digits: &[u8]) -> io::Result<()>
        ensures number { self.new.number ≡ self.old.number }
        ensures digits { OnOk result (self.new.digits.items ≡ self.old.digits.items ++ take (longest + 1 - length self.old.digits.items) digits.now) }
    {
        let room = (LONGEST + 1).saturating_sub(self.digits.len());
        self.digits
            .extend_from_slice(&digits[..room.min(digits.len())])?;
        Ok(())
    }

    // Lists a line that has ended, and begins the next.
    fn end<W: Write>(&mut self, mode: Mode, alloc: Global, output: &mut W) -> io::Result<()>
        requires { self.old.number < most_number }
        ensures all { OnOk result (Appends (W.contents output.old) (W.contents output.new)
            (line_text mode self.old.number self.old.digits.items)) }
        ensures front { OnErr result (AppendsFront (W.contents output.old) (W.contents output.new)
            (line_text mode self.old.number self.old.digits.items)) }
        ensures number { OnOk result (self.new.number ≡ self.old.number + 1) }
        ensures digits { OnOk result (self.new.digits.items ≡ []) }
    {
        self.write(mode, alloc, output)?;
        self.number += 1;
        self.digits.clear();
        Ok(())
    }

    // Looks at a part of the input: the lines that end in it are listed.
    fn take<W: Write>(
        &mut self,
        part: &[u8],
        mode: Mode,
        alloc: Global,
        output: &mut W,
    ) -> io::Result<()>
        requires { self.old.number + length part.now ≤ most_number }
        ensures all { OnOk result ((read : List ℕ) (before : Option (List ℕ)) → Reading mode read part.now before (W.contents output.old) self.old
            → Reading mode read [] before (W.contents output.new) self.new) }
        ensures front { OnErr result ((read more : List ℕ) (before : Option (List ℕ)) → Reading mode read part.now before (W.contents output.old) self.old
            → AppendsFront before (W.contents output.new) (listing mode (read ++ more))) }
    {
        let mut rest = part;
        while let Some(end) = memchr(b'\n', rest) {
            self.hold(&rest[..end])?;
            self.end(mode, alloc, output)?;
            rest = &rest[end + 1..];
        }
        self.hold(rest)
    }
}

fn is_interrupted(why: &io::Error) -> bool
    ensures { result ≡ true ↔ (error_kind why.now ≡ ErrorKind.Interrupted) }
{
    match why.kind() {
        ErrorKind::Interrupted => true,
        _ => false,
    }
}

// A read that no signal interrupts.
fn read_on<R: Read>(input: &mut R, part: &mut [u8]) -> io::Result<usize>
    ensures bound { ReadsAtMost result part.new }
    ensures ok { IfOk result (λ n. Consumes (R.remaining input.old) (R.remaining input.new) (take n part.new)) }
    ensures end { IfOk result (λ n. n ≡ 0 → 0 < length part.old → IsAtEnd (R.remaining input.new)) }
    ensures err { OnErr result (Keeps (R.remaining input.old) (R.remaining input.new)) }
    ensures retried { IfErr result (λ e. error_kind e ≢ ErrorKind.Interrupted) }
{
    for _ in 0..u64::MAX {
        match input.read(part) {
            Ok(n) => return Ok(n),
            Err(why) => {
                if !is_interrupted(&why) {
                    return Err(why);
                }
            }
        }
    }
    Err(io::Error::from(ErrorKind::TimedOut))
}

/// The listing of all that the input has left. Each line is listed as soon as it is whole.
pub fn list<R: Read, W: Write>(
    input: &mut R,
    output: &mut W,
    alloc: Global,
    mode: Mode,
) -> Result<(), Failure>
    ensures whole { OnOk result (IfSome (R.remaining input.old) (λ s. Appends (W.contents output.old) (W.contents output.new) (listing mode s))) }

    // Where it stops before the input ends, the lines that were read whole are listed.
    ensures stopped { IfErr result (λ e. Stopped mode (R.remaining input.old) (R.remaining input.new) (W.contents output.old) (W.contents output.new) e) }

    // And whatever the error is: what was written is a front of the listing.
    ensures front { OnErr result (IfSome (R.remaining input.old) (λ s. AppendsFront (W.contents output.old) (W.contents output.new) (listing mode s))) }
{
    put(
        b"line at len group offset size type flags unread attrs refs name typename high\n",
        output,
    )?;
    let mut line = Line {
        number: 1,
        digits: Vec::new(alloc),
    };
    let mut part = [0u8; PART];
    let mut taken: u64 = 0;
    while taken < MOST {
        // Who follows the output sees each line as it ends, before more of the input is waited for.
        output.flush()?;
        match read_on(input, &mut part) {
            Ok(0) => {
                line.write(mode, alloc, output)?;
                output.flush()?;
                return Ok(());
            }
            Ok(n) => {
                line.take(&part[..n], mode, alloc, output)?;
                taken += n as u64;
            }
            Err(why) => return Err(Failure::Input(why)),
        }
    }
    Err(Failure::Endless)
}

/// Six lines, letter by letter; and digits of up to 16,384 bytes are read, where a line that spells no bytes, or a digit more, is bad.
pub fn listing_meant()
    ensures { ListingMeant }
{}
