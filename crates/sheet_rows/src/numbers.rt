//! The numbers of a row.

ghost use Rattle.std.specs.Prelude.{◌≡◌, ◌+◌, ◌-◌, ◌*◌, ◌<◌, ◌≤◌, IfSome, leb, Some, None, if◌then◌else◌};
ghost use Rattle.sheet_rows.specs.Numbers.{is_digit, number_from, number_of};
ghost use Rattle.sheet_rows.specs.Rows.{flags_of, numbers_of};

use crate::cells::Cells;
use flags::symbol_flags::AdsSymbolFlags;

// The most that four bytes hold.
const MOST: u32 = 0xFFFF_FFFF;

/// The numbers of a row, from the column `group` to the column `high`.
#[derive(Clone, Copy)]
pub struct Numbers {
    pub index_group: u32,
    pub index_offset: u32,
    pub size: u32,
    pub data_type_id: u32,
    pub flags: u16,
    pub high: u16,
}

fn is_digit(byte: u8) -> bool
    ensures { result ≡ is_digit byte }
{
    b'0' <= byte && byte <= b'9'
}

// A number with a digit behind it, unless it is above the most.
fn with_digit(most: u32, number: u32, digit: u8) -> Option<u32>
    requires { number ≤ most }
    ensures value { result ≡ (if is_digit digit then if leb (10 * number + (digit - 48)) most then Some (10 * number + (digit - 48)) else None else None) }
    ensures within { IfSome result (λ n. n ≤ most) }
{
    if !is_digit(digit) {
        return None;
    }
    let next = 10 * u64::from(number) + u64::from(digit - b'0');
    if u64::from(most) < next {
        return None;
    }
    Some(next as u32)
}

// The number that a cell's digits are, leading zeros among them.
#[tactic(auto, unfolding(crate::specs::Numbers::number_of, crate::specs::Numbers::number_from))]
fn number(most: u32, text: &[u8]) -> Option<u32>
    ensures value { result ≡ number_of most text.now }
    ensures within { IfSome result (λ n. n ≤ most) }
{
    if text.is_empty() {
        return None;
    }
    let mut number = 0;
    for digit in text {
        number = with_digit(most, number, *digit)?;
    }
    Some(number)
}

fn word(text: &[u8]) -> Option<u16>
    ensures { result ≡ number_of 65535 text.now }
{
    let number = number(0xFFFF, text)?;
    Some(number as u16)
}

// Flags of a symbol without sections.
#[tactic(auto, unfolding(crate::specs::Rows::flags_of))]
fn flags(text: &[u8]) -> Option<u16>
    ensures { result ≡ flags_of text.now }
{
    let word = word(text)?;
    let flags = AdsSymbolFlags(word);
    if flags.has_type_guid() || flags.has_attributes() || flags.has_extended_flags() {
        return None;
    }
    Some(word)
}

/// The numbers of a row's first six columns, or the first column, from 1, whose cell is not digits within its field, or
/// flags that name sections.
#[tactic(auto, unfolding(crate::specs::Rows::numbers_of))]
pub fn read_numbers(cells: &Cells<'_>) -> Result<Numbers, usize>
    ensures { result ≡ numbers_of cells.now }
{
    let (places, kinds) = (cells.places, cells.kinds);
    let index_group = number(MOST, places.first).ok_or(1_usize)?;
    let index_offset = number(MOST, places.second).ok_or(2_usize)?;
    let size = number(MOST, places.third).ok_or(3_usize)?;
    let data_type_id = number(MOST, kinds.first).ok_or(4_usize)?;
    let flags = flags(kinds.second).ok_or(5_usize)?;
    let high = word(kinds.third).ok_or(6_usize)?;
    Ok(Numbers {
        index_group,
        index_offset,
        size,
        data_type_id,
        flags,
        high,
    })
}
