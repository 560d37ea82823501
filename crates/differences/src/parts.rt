//! The sections of two symbols side by side.
ghost use Rattle.std.specs.Prelude.{◌≡◌, ◌<◌, ◌+◌, ◌++◌, [], true, false, OnOk, length, slice_get};
ghost use Rattle.std.specs.List.{cons_option};
ghost use Rattle.differences.specs.Parts.{are_told_alike, behind, in_both, in_part, in_parts, is_lengths, next, told_apart};

use crate::Difference;
use crate::first::first_byte;
use sections::{Part, Section};
use std::alloc::AllocError;
use std::cmp::Ordering;
use symbol::AdsSymbolInfo;
use values::{Value, value_of};

// Of what is left of two symbols' sections those that stand next: both where they are the same part, else the one that stands before.
fn next<'a>(
    ours: &[Section<'a>],
    theirs: &[Section<'a>],
) -> (Option<Section<'a>>, Option<Section<'a>>)
    ensures { result ≡ next (slice_get ours.now 0) (slice_get theirs.now 0) }
{
    match (ours.first().copied(), theirs.first().copied()) {
        (Some(x), Some(y)) => match x.part.compare(y.part) {
            Ordering::Less => (Some(x), None),
            Ordering::Equal => (Some(x), Some(y)),
            Ordering::Greater => (None, Some(y)),
        },
        (one, other) => (one, other),
    }
}

// What is left behind a section that was told, if there was one.
fn behind<'s, 'a>(sections: &'s [Section<'a>], told: Option<Section<'a>>) -> &'s [Section<'a>]
    ensures { result.now ≡ behind told.entry sections.now }
{
    if told.is_some() && !sections.is_empty() {
        &sections[1..]
    } else {
        sections
    }
}

// They are told with the strings.
fn is_lengths(part: Part) -> bool
    ensures { result ≡ is_lengths part }
{
    matches!(part, Part::StringLengths)
}

// Whether nothing is told of a part that both have.
fn are_told_alike(x: &Section<'_>, y: &Section<'_>) -> bool
    ensures { result ≡ are_told_alike x.now y.now }
{
    is_lengths(x.part) || x.bytes == y.bytes
}

// What both tell of a part whose bytes differ; where that is the same, the first byte that differs.
fn told_apart<'a>(
    x: &Section<'a>,
    y: &Section<'a>,
    in_a: Value<'a>,
    in_b: Value<'a>,
) -> (Value<'a>, Value<'a>)
    ensures { result ≡ told_apart x.now y.now in_a.entry in_b.entry }
{
    if in_a.tells_the_same(in_b) {
        first_byte(x.at, x.bytes, y.at, y.bytes)
    } else {
        (in_a, in_b)
    }
}

// What is told of a part that both have.
fn in_both<'a>(
    a: &AdsSymbolInfo<'a>,
    b: &AdsSymbolInfo<'a>,
    x: &Section<'a>,
    y: &Section<'a>,
) -> Option<Difference<'a>>
    ensures { result ≡ in_both a.now b.now x.now y.now }
{
    if are_told_alike(x, y) {
        return None;
    }
    let (in_a, in_b) = told_apart(x, y, value_of(a, x), value_of(b, y));
    Some(Difference {
        part: Some(x.part),
        in_a,
        in_b,
    })
}

// What is told of a part that both have, or one of them alone.
fn in_part<'a>(
    a: &AdsSymbolInfo<'a>,
    b: &AdsSymbolInfo<'a>,
    one: Option<Section<'a>>,
    other: Option<Section<'a>>,
) -> Option<Difference<'a>>
    ensures { result ≡ in_part a.now b.now one.entry other.entry }
{
    match (one, other) {
        (Some(x), Some(y)) => in_both(a, b, &x, &y),
        (Some(x), None) => Some(Difference {
            part: Some(x.part),
            in_a: value_of(a, &x),
            in_b: Value::Absent,
        }),
        (None, Some(y)) => Some(Difference {
            part: Some(y.part),
            in_a: Value::Absent,
            in_b: value_of(b, &y),
        }),
        (None, None) => None,
    }
}

fn are_all_told(ours: &[Section<'_>], theirs: &[Section<'_>]) -> bool
    ensures all { result ≡ true → length ours.now + length theirs.now ≡ 0 }
    ensures some { result ≡ false → 0 < length ours.now + length theirs.now }
{
    ours.is_empty() && theirs.is_empty()
}

fn push_told<'a>(
    difference: Option<Difference<'a>>,
    all: &mut Vec<Difference<'a>>,
) -> Result<(), AllocError>
    ensures { OnOk result (all.new.items ≡ all.old.items ++ cons_option difference.entry []) }
{
    if let Some(difference) = difference {
        all.push(difference)?;
    }
    Ok(())
}

/// Adds the parts in which two symbols differ, by their sections.
pub(crate) fn push_parts<'a>(
    a: &AdsSymbolInfo<'a>,
    b: &AdsSymbolInfo<'a>,
    sections_of_a: &[Section<'a>],
    sections_of_b: &[Section<'a>],
    all: &mut Vec<Difference<'a>>,
) -> Result<(), AllocError>
    ensures { OnOk result (all.new.items ≡ all.old.items ++ in_parts a.now b.now sections_of_a.now sections_of_b.now) }
{
    let mut ours = sections_of_a;
    let mut theirs = sections_of_b;
    while !are_all_told(ours, theirs) {
        let (one, other) = next(ours, theirs);
        push_told(in_part(a, b, one, other), all)?;
        ours = behind(ours, one);
        theirs = behind(theirs, other);
    }
    Ok(())
}
