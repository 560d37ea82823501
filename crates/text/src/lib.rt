//! Windows-1252 bytes to UTF-8 text and back, into a lent buffer: what the Rust asks encoding_rs for (docs/FORMAT.md, "Text").
#![tactic(auto)]

mod decoder;
mod encoder;

ghost use Rattle.std.specs.Prelude.{◌≡◌, ℕ, ◌+◌, ◌≤◌, ◌<◌, length, get_or, Ok};
ghost use Rattle.writing.specs.Writing.{Writes};
ghost use Rattle.text.specs.Text.{code_point};
ghost use Rattle.text.specs.RoundTrip.{BytesComeBack, TextComesBack};
ghost use Rattle.text.specs.Faults.{FaultsMeant, TableMeant};

pub use decoder::{byte_width, decode, put_text};
pub use encoder::{encode, encoded_length};
use refusal::Refusal;

// The code points of the bytes 80 to 9F.
const POINTS: [u16; 32] = [
    0x20AC, 0x0081, 0x201A, 0x0192, 0x201E, 0x2026, 0x2020, 0x2021, 0x02C6, 0x2030, 0x0160, 0x2039,
    0x0152, 0x008D, 0x017D, 0x008F, 0x0090, 0x2018, 0x2019, 0x201C, 0x201D, 0x2022, 0x2013, 0x2014,
    0x02DC, 0x2122, 0x0161, 0x203A, 0x0153, 0x009D, 0x017E, 0x0178,
];

/// The character of a byte.
#[tactic(auto, unfolding(crate::specs::Text::code_point, crate::specs::Text::points))]
pub fn code_point(byte: u8) -> char
    ensures { result ≡ code_point byte }
{
    let table = &POINTS;
    if 0x80 <= byte && byte < 0xA0 {
        let i = usize::from(byte - 0x80);
        return match char::from_u32(u32::from(table[i])) {
            Some(point) => point,
            None => unreachable!(),
        };
    }
    char::from(byte)
}

fn larger(a: u8, b: u8) -> u8
    ensures { (a ≤ result) × (b ≤ result) }
{
    if a < b { b } else { a }
}

// A byte that none of so many from a place on is above. It looks at all of them, so that the compiler takes many at once.
fn highest_of(s: &[u8], from: usize, count: usize) -> u8
    requires { from + count ≤ length s.now }
    ensures { (k : ℕ) → k < count → get_or s.now (from + k) 0 ≤ result }
{
    let mut most: u8 = 0;
    let mut i: usize = 0;
    while i < count {
        most = larger(most, s[from + i]);
        i += 1;
    }
    most
}

// A name is mostly of 16 to 32 bytes. Its first and last 16 are all of it, and 16 at once take one step and no loop.
fn highest(s: &[u8]) -> u8
    ensures { (k : ℕ) → get_or s.now k 0 ≤ result }
{
    let n = s.len();
    if 16 <= n {
        if n <= 32 {
            return larger(highest_of(s, 0, 16), highest_of(s, n - 16, 16));
        }
    }
    highest_of(s, 0, n)
}

// Bytes below 80 are the same on both sides.
fn put_same(src: &[u8], out: &mut [u8]) -> Result<usize, Refusal>
    ensures { Writes (Ok src.now) out.old out.new result }
{
    let needed = src.len();
    if out.len() < needed {
        return Err(Refusal::OutputTooSmall {
            needed,
            lent: out.len(),
        });
    }
    Ok(le::put_bytes(out, 0, src))
}

// The theorems. Each is the contract of a function that does nothing, so that none goes unnoticed if its proof does.

/// Bytes have a text exactly where they are within the limit; it is within Windows-1252, and gives these bytes back, where it is within the limit too.
pub fn bytes_come_back()
    ensures { BytesComeBack }
{}

/// A text is accepted exactly where it is within Windows-1252 and the limit; it is the text of the bytes that it is written as.
pub fn text_comes_back()
    ensures { TextComesBack }
{}

/// Bytes are refused above the limit alone; a text likewise, before all else, and within it at its first fault alone: the bytes of
/// no scalar value, or of one that Windows-1252 does not have.
pub fn faults_meant()
    ensures { FaultsMeant }
{}

/// Each of the bytes 80 to 9F becomes the code point that the table has for it, and every other byte becomes itself.
pub fn table_meant()
    ensures { TableMeant }
{}
