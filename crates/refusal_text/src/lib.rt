//! The text of a refusal that is told in numbers, written into a lent buffer (docs/FORMAT.md, "Refusals").
#![tactic(auto)]

ghost use Rattle.std.specs.Prelude.{◌≡◌, ◌+◌, ◌≤◌, length};
ghost use Rattle.refusal.specs.Text.{phrases_of, text_of, figure};
ghost use Rattle.refusal.specs.Phrased.{Phrased};
ghost use Rattle.le.specs.Put.{Wrote};
ghost use Rattle.writing.specs.Writing.{Writes};
ghost use Rattle.refusal_text.specs.Told.{refusal_of, refusal_from_10, unfound, writing_text};
ghost use Rattle.refusal_text.specs.Meant.{TextsMeant};
ghost use Rattle.refusal_text.specs.Words.{TextsTold};

use itoa::Buffer;
use refusal::{Refusal, Words};

// The refusals are numbered from 1 to this.
const NUMBERS: usize = 24;

// The refusal of a number and its two figures.
#[tactic(auto, unfolding(crate::specs::Told::refusal_of))]
fn refusal_of(number: u32, expected: usize, got: usize) -> Option<Refusal>
    ensures { result ≡ refusal_of number expected got }
{
    let (first, second) = (expected, got);
    let why = match number {
        1 => Refusal::UnexpectedLength {
            needed: first,
            present: second,
        },
        2 => Refusal::TooShort {
            needed: first,
            present: second,
        },
        3 => Refusal::EntryLengthMismatch {
            needed: first,
            available: second,
        },
        4 => Refusal::ClaimBelowHeader {
            header: first,
            claim: second,
        },
        5 => Refusal::TooLarge { length: second },
        6 => Refusal::OutputTooSmall {
            needed: first,
            lent: second,
        },
        7 => Refusal::TooLong {
            most: first,
            actual: second,
        },
        8 => Refusal::SectionsDisagree { section: first },
        9 => Refusal::BadBlock {
            count: first,
            good: second,
        },
        _ => return refusal_from_10(number, expected, got),
    };
    Some(why)
}

// The same of the numbers from 10 on.
#[tactic(auto, unfolding(crate::specs::Told::refusal_from_10))]
fn refusal_from_10(number: u32, expected: usize, got: usize) -> Option<Refusal>
    ensures { result ≡ refusal_from_10 number expected got }
{
    let (first, second) = (expected, got);
    let why = match number {
        10 => Refusal::ZeroEntryLength,
        11 => Refusal::BadText {
            place: first,
            kind: second,
        },
        12 => Refusal::BadHexadecimal,
        13 => unfound(first, second),
        14 => Refusal::NoSuchNumber {
            count: first,
            asked: second,
        },
        15 => Refusal::TooDeep,
        16 => Refusal::EndByte {
            place: first,
            byte: (second % 256) as u8,
        },
        17 => Refusal::NotInSheet {
            entry: first,
            reason: second,
        },
        18 => Refusal::BadSheet {
            row: first,
            column: second,
        },
        19 => Refusal::NotPlain { place: first },
        20 => Refusal::BadPath { place: first },
        21 => Refusal::WrongDimensions {
            place: first,
            dimensions: second,
        },
        22 => Refusal::NoOffset {
            place: first,
            flag: second,
        },
        23 => Refusal::OffsetTooLarge { offset: second },
        24 => Refusal::TooManyAliases { place: first },
        _ => return None,
    };
    Some(why)
}

// What is not found: of a path a member or a data type.
#[tactic(auto, unfolding(crate::specs::Told::unfound))]
fn unfound(place: usize, kind: usize) -> Refusal
    ensures { result ≡ unfound place kind }
{
    match kind {
        1 => Refusal::NoSuchMember { place },
        2 => Refusal::NoSuchType { place },
        _ => Refusal::NameNotFound,
    }
}

// The words of a refusal, which are few.
#[tactic(auto, using(crate::proofs::Short::words_short))]
fn words_of(why: Refusal) -> Words
    ensures value { Phrased (phrases_of why) result }
    ensures small { length result.before.now + length result.between.now + length result.after.now ≤ 88 }
{
    why.words()
}

fn figure_size(told: Option<usize>) -> usize
    ensures value { result ≡ length (figure told) }
    ensures small { result ≤ 40 }
{
    match told {
        Some(number) => Buffer::new().format(number).len(),
        None => 0,
    }
}

fn put_figure(out: &mut [u8], at: usize, told: Option<usize>) -> usize
    requires { at + length (figure told) ≤ length out.old }
    ensures { Wrote out.old at (figure told) out.new result }
{
    let Some(number) = told else { return at };
    let mut buffer = Buffer::new();
    le::put_bytes(out, at, buffer.format(number).as_bytes())
}

fn text_size(why: Refusal) -> usize
    ensures { result ≡ length (text_of why) }
{
    let words = words_of(why);
    let length = words.before.len() + words.between.len() + words.after.len();
    length + figure_size(words.first) + figure_size(words.second)
}

// Writes the text at the start of what is known to have room for it.
fn put_text(out: &mut [u8], why: Refusal) -> usize
    requires { length (text_of why) ≤ length out.old }
    ensures { Wrote out.old 0 (text_of why) out.new result }
{
    let words = words_of(why);
    let a = le::put_bytes(out, 0, words.before.as_bytes());
    let b = put_figure(out, a, words.first);
    let c = le::put_bytes(out, b, words.between.as_bytes());
    let d = put_figure(out, c, words.second);
    le::put_bytes(out, d, words.after.as_bytes())
}

/// Writes the text of the refusal that has this number and these figures, and gives how many bytes it is: the text that a
/// `Refusal` is displayed by. A figure that the number fixes is not looked at, and of an end byte the low 8 bits count.
///
/// # Errors
///
/// 14 where no refusal has the number, then 6.
pub fn write_text(
    number: u32,
    expected: usize,
    got: usize,
    out: &mut [u8],
) -> Result<usize, Refusal>
    ensures { Writes (writing_text number expected got) out.old out.new result }
{
    let Some(why) = refusal_of(number, expected, got) else {
        return Err(Refusal::NoSuchNumber {
            count: NUMBERS,
            asked: number as usize,
        });
    };
    let needed = text_size(why);
    let lent = out.len();
    if lent < needed {
        return Err(Refusal::OutputTooSmall { needed, lent });
    }
    put_text(out, why);
    Ok(needed)
}

// Theorems. Each is the contract of a function that does nothing, so that none goes unnoticed if its proof does.

/// A refusal's own number and figures are told by its text, every other number is refused, and no text is longer than 128
/// bytes.
pub fn texts_meant()
    ensures { TextsMeant }
{}

/// Every refusal is told in its own words, with its figures where they stand.
pub fn texts_told()
    ensures { TextsTold }
{}
