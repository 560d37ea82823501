// What the writers write into a spare buffer.
use crate::case::{Case, Hex, refused};
use attribute::AdsAttribute;
use field::writer::NewField;
use flags::index_group::IndexGroup;
use flags::index_offset::IndexOffset;
use flags::symbol_flags::{AdsSymbol2Flags, AdsSymbolFlags};
use flags::type_flags::AdsTypeFlags;
use refactor::AdsRefactorInfo;
use refusal::Refusal;
use std::io;
use std::io::Write;
use symbol::NewSymbol;
use writing::Block;

fn attribute(case: &Case, out: &mut [u8]) -> Result<usize, Refusal> {
    let name = case.bytes(0);
    let value = case.bytes(1);
    AdsAttribute { name, value }.write(out)
}

fn refactor(case: &Case, out: &mut [u8]) -> Result<usize, Refusal> {
    let has_next = case.number(1) == 1;
    let record = AdsRefactorInfo {
        refactor_count: case.number(0),
        next_refactor_info: has_next,
        name: case.bytes(2),
    };
    record.write_with_next(has_next, out)
}

fn number_at(bytes: &[u8], at: usize) -> u32 {
    match bytes.get(at..) {
        Some(rest) => le::first_u32(rest),
        None => 0,
    }
}

// The two low bytes of such a number.
fn half_at(bytes: &[u8], at: usize) -> u16 {
    (number_at(bytes, at) % 65_536) as u16
}

fn block(case: &Case, number: usize) -> Block<'_> {
    Block {
        bytes: case.bytes(number.saturating_add(1)),
        count: case.number(number) as usize,
    }
}

fn guid(case: &Case) -> Option<[u8; 16]> {
    case.bytes(4).first_chunk::<16>().copied()
}

fn field(case: &Case, out: &mut [u8]) -> Result<usize, Refusal> {
    let numbers = case.bytes(0);
    let field = NewField {
        version: number_at(numbers, 0),
        hash_value: number_at(numbers, 4),
        type_hash_value: number_at(numbers, 8),
        size: number_at(numbers, 12),
        offset: number_at(numbers, 16),
        type_id: number_at(numbers, 20),
        flags: AdsTypeFlags(number_at(numbers, 24)),
        name: case.bytes(1),
        type_name: case.bytes(2),
        comment: case.bytes(3),
        guid: guid(case),
        attributes: block(case, 5),
    };
    field.write(out)
}

fn symbol(case: &Case, out: &mut [u8]) -> Result<usize, Refusal> {
    let numbers = case.bytes(0);
    let symbol = NewSymbol {
        index_group: IndexGroup(number_at(numbers, 0)),
        index_offset: IndexOffset(number_at(numbers, 4)),
        size: number_at(numbers, 8),
        data_type_id: number_at(numbers, 12),
        flags: AdsSymbolFlags(half_at(numbers, 16)),
        high: half_at(numbers, 18),
        extended_flags: AdsSymbol2Flags(number_at(numbers, 20)),
        name: case.bytes(1),
        type_name: case.bytes(2),
        comment: case.bytes(3),
        guid: guid(case),
        attributes: block(case, 5),
        refactor_infos: block(case, 7),
    };
    symbol.write(out)
}

fn write(case: &Case, out: &mut [u8]) -> Option<Result<usize, Refusal>> {
    match case.kind {
        b'A' => Some(attribute(case, out)),
        b'R' => Some(refactor(case, out)),
        b'C' => Some(refactor::write_entries(case.number(0) as usize, case.bytes(1), out)),
        b'I' => Some(field(case, out)),
        b'S' => Some(symbol(case, out)),
        b't' => Some(text::decode(case.bytes(0), out)),
        b'u' => Some(text::encode(case.bytes(0), out)),
        _ => None,
    }
}

/// How much was written and what, or why nothing was. Another kind of case has no answer.
pub fn answer<W: Write>(case: &Case, spare: &mut [u8], out: &mut W) -> io::Result<()> {
    match write(case, spare) {
        Some(Ok(length)) => {
            write!(out, " ok {length}")?;
            match spare.get(..length) {
                Some(bytes) => {
                    let bytes = Hex(bytes);
                    write!(out, " {bytes}")
                }
                None => Ok(()),
            }
        }
        Some(Err(why)) => refused(why, out),
        None => Ok(()),
    }
}
