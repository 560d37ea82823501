//! In which parts two entries of symbols differ, and what each tells there (docs/FORMAT.md, "The command's text", of `compare`).
#![tactic(auto)]

ghost use Rattle.std.specs.Prelude.{◌≡◌, ◌++◌, IfOk, OnOk};
ghost use Rattle.differences.specs.Differences.{differences_of, in_refusals, in_symbols, reason};

mod first;
mod parts;
pub mod theorems;

use crate::first::first_byte;
use crate::parts::push_parts;
use refusal::Refusal;
use sections::{Part, sections};
use std::alloc::{AllocError, Global};
use symbol::AdsSymbolInfo;
use values::{Value, are_refused_alike};

/// An entry: its own bytes, and what was read of them.
#[derive(Clone, Copy, Debug)]
pub struct Entry<'a> {
    /// The bytes of its claim.
    pub bytes: &'a [u8],
    /// The symbol, or why there is none.
    pub answer: Result<AdsSymbolInfo<'a>, Refusal>,
}

/// A part in which two entries differ, and what each tells there.
#[derive(Clone, Copy, Debug)]
pub struct Difference<'a> {
    /// The part, or none where an entry is refused.
    pub part: Option<Part>,
    /// What A's entry tells.
    pub in_a: Value<'a>,
    /// What B's tells.
    pub in_b: Value<'a>,
}

/// In which parts two entries differ, in the order of the parts: those that one of them has alone, and those whose bytes differ, but for the
/// lengths of the strings, which are told with the strings. Where one or both are refused it is one difference, of no part.
///
/// # Errors
///
/// Where no memory is left.
pub fn differences<'a>(
    alloc: Global,
    a: &Entry<'a>,
    b: &Entry<'a>,
) -> Result<Vec<Difference<'a>>, AllocError>
    ensures { IfOk result (λ all. all.items ≡ differences_of a.now b.now) }
{
    let mut all = Vec::new(alloc);
    match (&a.answer, &b.answer) {
        (Ok(in_a), Ok(in_b)) => push_in_symbols(alloc, a.bytes, in_a, b.bytes, in_b, &mut all)?,
        (one, other) => all.push(in_refusals(a.bytes, *one, b.bytes, *other))?,
    }
    Ok(all)
}

// The parts in which two accepted entries differ.
#[tactic(auto, unfolding(crate::specs::Differences::in_symbols))]
fn push_in_symbols<'a>(
    alloc: Global,
    a: &'a [u8],
    in_a: &AdsSymbolInfo<'a>,
    b: &'a [u8],
    in_b: &AdsSymbolInfo<'a>,
    all: &mut Vec<Difference<'a>>,
) -> Result<(), AllocError>
    ensures { OnOk result (all.new.items ≡ all.old.items ++ in_symbols a.entry in_a.now b.entry in_b.now) }
{
    let sections_of_a = sections(alloc, a, in_a)?;
    let sections_of_b = sections(alloc, b, in_b)?;
    push_parts(
        in_a,
        in_b,
        sections_of_a.as_slice(),
        sections_of_b.as_slice(),
        all,
    )
}

// Where one of the two is refused: why, or where both are refused alike, the first byte that differs.
fn in_refusals<'a>(
    a: &[u8],
    in_a: Result<AdsSymbolInfo<'a>, Refusal>,
    b: &[u8],
    in_b: Result<AdsSymbolInfo<'a>, Refusal>,
) -> Difference<'a>
    ensures { result ≡ in_refusals a.now in_a.entry b.now in_b.entry }
{
    let (in_a, in_b) = match (in_a, in_b) {
        (Err(one), Err(other)) if are_refused_alike(one, other) => first_byte(0, a, 0, b),
        (one, other) => (reason(one), reason(other)),
    };
    Difference {
        part: None,
        in_a,
        in_b,
    }
}

fn reason<'a>(answer: Result<AdsSymbolInfo<'_>, Refusal>) -> Value<'a>
    ensures { result ≡ reason answer.entry }
{
    match answer {
        Ok(_) => Value::Absent,
        Err(why) => Value::Refused(why),
    }
}
