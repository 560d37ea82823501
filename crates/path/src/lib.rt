//! The parts of a variable's path behind the name of its symbol: names of members and subscripts (docs/FORMAT.md, "Binding").
#![tactic(auto, unfolding(crate::specs::Path::value))]

ghost use Rattle.std.specs.Prelude.{◌≡◌, ◌==◌, ◌||◌, ◌<◌, ◌≤◌, ◌^◌, IfOk, length, slice_index, take};
ghost use Rattle.std.specs.List.{prefix_len, position_or_len};
ghost use Rattle.path.specs.Path.{is_mark, is_digit, value, closed, closing, numbered, member, bracketed, first_part, ends, next_value};
ghost use Rattle.path.specs.Meaning.{PartsRead};
ghost use Rattle.path.specs.Texts.{PartsMeant};

/// A subscript's number: its sign, and its digits as a number, or `Subscript::LARGEST` where that is larger.
#[derive(Clone, Copy, Debug, PartialEq, Eq)]
pub struct Subscript {
    pub negative: bool,
    pub magnitude: u64,
}

impl Subscript {
    /// Above each number that a subscript within bounds has.
    pub const LARGEST: u64 = 8589934592;
}

/// A part of a path.
#[derive(Clone, Copy, Debug)]
pub enum Part<'p> {
    /// A member, by its name.
    Member(&'p [u8]),
    /// An element, by its number in one dimension.
    Element(Subscript),
}

/// The part at the start of a text, and the text behind it.
#[derive(Clone, Copy, Debug)]
pub struct Split<'p> {
    pub part: Part<'p>,
    pub rest: &'p [u8],
}

// The first byte, or 0 where there is none.
fn first(s: &[u8]) -> u8
    ensures { result ≡ slice_index s.now 0 }
{
    if s.is_empty() { 0 } else { s[0] }
}

/// Whether a byte begins a part behind another: a dot or an opening bracket.
pub fn is_mark(b: u8) -> bool
    ensures { result ≡ is_mark b }
{
    b == b'.' || b == b'['
}

fn is_digit(b: u8) -> bool
    ensures { result ≡ is_digit b }
{
    b'0' <= b && b <= b'9'
}

/// Whether a text has ended, or goes on with a part.
pub fn ends(s: &[u8]) -> bool
    ensures { result ≡ ends s.now }
{
    s.is_empty() || is_mark(s[0])
}

// How many bytes stand before the first dot or opening bracket.
#[tactic(auto, using(crate::proofs::Laws::count_more, crate::proofs::Laws::count_stops, crate::proofs::Laws::count_ends))]
fn name_length(s: &[u8]) -> usize
    ensures value { result ≡ position_or_len is_mark s.now }
    ensures within { result ≤ length s.now }
{
    let mut n = 0;
    while n < s.len() {
        if is_mark(s[n]) {
            return n;
        }
        n += 1;
    }
    n
}

#[tactic(auto, using(crate::proofs::Laws::count_more, crate::proofs::Laws::count_stops, crate::proofs::Laws::count_ends))]
fn digit_count(s: &[u8]) -> usize
    ensures value { result ≡ prefix_len is_digit s.now }
    ensures within { result ≤ length s.now }
{
    let mut n = 0;
    while n < s.len() {
        if !is_digit(s[n]) {
            return n;
        }
        n += 1;
    }
    n
}

// One digit more.
fn next_value(number: u64, digit: u8) -> u64
    requires { number < 2 ^ 40 }
    ensures { result ≡ next_value number digit }
{
    (10 * number + digit.saturating_sub(b'0') as u64).min(Subscript::LARGEST)
}

#[tactic(auto, using(crate::proofs::Laws::value_more, crate::proofs::Laws::value_ends))]
fn value(digits: &[u8]) -> u64
    ensures { result ≡ value 0 digits.now }
{
    let mut number = 0;
    for digit in digits {
        number = next_value(number, *digit);
    }
    number
}

// Behind the digits of a subscript: a comma stays for the next, a bracket closes.
#[tactic(auto, unfolding(crate::specs::Path::closed))]
fn closed(s: &[u8], number: Subscript) -> Result<Split<'_>, usize>
    ensures value { result ≡ closed s.entry number }
    ensures behind { IfOk result (λ p. length p.rest.now ≤ length s.now) }
{
    match first(s) {
        b',' => Ok(Split {
            part: Part::Element(number),
            rest: s,
        }),
        b']' => closing(&s[1..], number),
        _ => Err(s.len()),
    }
}

#[tactic(auto, unfolding(crate::specs::Path::closing))]
fn closing(s: &[u8], number: Subscript) -> Result<Split<'_>, usize>
    ensures value { result ≡ closing s.entry number }
    ensures behind { IfOk result (λ p. length p.rest.now ≤ length s.now) }
{
    if ends(s) {
        Ok(Split {
            part: Part::Element(number),
            rest: s,
        })
    } else {
        Err(s.len())
    }
}

// Behind the sign of a subscript.
#[tactic(auto, unfolding(crate::specs::Path::numbered))]
fn numbered(s: &[u8], negative: bool) -> Result<Split<'_>, usize>
    ensures value { result ≡ numbered s.entry negative }
    ensures behind { IfOk result (λ p. length p.rest.now ≤ length s.now) }
{
    let digits = digit_count(s);
    if digits == 0 {
        return Err(s.len());
    }
    let number = Subscript {
        negative,
        magnitude: value(&s[..digits]),
    };
    closed(&s[digits..], number)
}

// Behind an opening bracket or a comma.
#[tactic(auto, unfolding(crate::specs::Path::bracketed))]
fn bracketed(s: &[u8]) -> Result<Split<'_>, usize>
    ensures value { result ≡ bracketed s.entry }
    ensures behind { IfOk result (λ p. length p.rest.now ≤ length s.now) }
{
    if first(s) == b'-' {
        numbered(&s[1..], true)
    } else {
        numbered(s, false)
    }
}

// Behind a dot.
#[tactic(auto, unfolding(crate::specs::Path::member))]
fn member(s: &[u8]) -> Result<Split<'_>, usize>
    ensures value { result ≡ member s.entry }
    ensures behind { IfOk result (λ p. length p.rest.now ≤ length s.now) }
{
    let length = name_length(s);
    if length == 0 {
        return Err(s.len());
    }
    Ok(Split {
        part: Part::Member(&s[..length]),
        rest: &s[length..],
    })
}

/// The part at the start of a text: a dot and a name, or behind an opening bracket or a comma a subscript.
///
/// # Errors
///
/// How many bytes of the text are left where it is no part.
#[tactic(auto, unfolding(crate::specs::Path::first_part))]
pub fn first_part(s: &[u8]) -> Result<Split<'_>, usize>
    ensures value { result ≡ first_part s.entry }
    ensures shorter { IfOk result (λ p. length p.rest.now < length s.now) }
{
    match first(s) {
        b'.' => member(&s[1..]),
        b'[' | b',' => bracketed(&s[1..]),
        _ => Err(s.len()),
    }
}

/// The theorem, as the contract of a function that does nothing: names and numbers of each form are read as the parts that they are, and each text that is none is refused where it departs.
pub fn parts_read()
    ensures { PartsRead }
{}

/// Whatever text it is: a name is read of it exactly where it begins with a dot and those bytes, up to the next mark; a number exactly where it begins with a bracket
/// or a comma and digits that write it, or one above each bound. So a text begins with one part at most, and is refused where it begins with none.
pub fn parts_meant()
    ensures { PartsMeant }
{}
