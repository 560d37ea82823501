// The interface for the studio's own software, which is not Rattle: numbers and byte slices, and a status.
#![tactic(auto)]

mod bound;
mod lines;
mod modes;
mod ordered;
mod plain_form;
mod reasons;
mod sheets;
mod types;
mod words;

ghost use Rattle.std.specs.Prelude.{◌≡◌, Ok};
ghost use Rattle.part.specs.Outcome.{and_then};
ghost use Rattle.refusal.specs.declared.Mode.TheVariants.{Present};
ghost use Rattle.flags.specs.Flags.{symbol_flags_of, symbol2_flags_of, type_flags_of};
ghost use Rattle.attribute.specs.Writing.{attribute_writing};
ghost use Rattle.refactor.specs.Writing.{info_writing, entries_writing};
ghost use Rattle.entry.specs.Bounded.{bounded_walk};
ghost use Rattle.walk.specs.Mapped.{map_ok};
ghost use Rattle.walk.specs.Step.{parse_of, step_at};
ghost use Rattle.symbol.specs.Symbol.{symbol_of};
ghost use Rattle.symbol.specs.Writing.{symbol_written};
ghost use Rattle.field.specs.Field.{field_of};
ghost use Rattle.field.specs.Writing.{field_written};
ghost use Rattle.index.specs.Index.{indexing};
ghost use Rattle.symbol_find.specs.Find.{find, find_indexed};
ghost use Rattle.room.specs.Room.{room_for};
ghost use Rattle.salvage.specs.Salvage.{salvaging};
ghost use Rattle.text.specs.Text.{decoding, encoding};
ghost use Rattle.places.specs.Alone.{attribute_alone, refactor_alone, chain_read, chain_record};
ghost use Rattle.places.specs.Entry.{symbol_attribute, symbol_attribute_named, symbol_refactor_info, field_attribute, field_attribute_named};
ghost use Rattle.told.specs.Told.{Tells, WritesTold, WritesBothTold, number_told, numbers_told, record_told, step_told, end_told};
ghost use Rattle.told.specs.Slots.{slots_after, step_after, symbol_slots, symbol_guid, field_slots, field_guid, attribute_slots, refactor_slots};
ghost use Rattle.vindaskot.specs.Lent.{lent_guid, new_symbol, new_field};

use attribute::AdsAttribute;
use field::AdsFieldInfo;
use field::writer::NewField;
use flags::index_group::IndexGroup;
use flags::index_offset::IndexOffset;
use flags::symbol_flags::{AdsSymbol2Flags, AdsSymbolFlags};
use flags::type_flags::AdsTypeFlags;
use refactor::AdsRefactorInfo;
use refusal::{Mode, Refusal};
use symbol::{AdsSymbolInfo, NewSymbol};
use writing::Block;

// The number of this interface changes with the arguments or the slots of any call, which no linker sees. So it stands in names, which a linker
// sees: here, in a function that the header and the Rust crate need, and in each call that changed with it.
#[unsafe(no_mangle)]
pub extern "C" fn vindaskot_interface_2() -> u32
    ensures { result ≡ 2 }
{
    2
}

#[unsafe(no_mangle)]
pub extern "C" fn vindaskot_symbol_read_2(
    bytes: &[u8],
    slots: &mut [u64; 21],
    guid: &mut [u8; 16],
    answer: &mut [u64; 2],
) -> u32
    ensures tells { Tells (record_told (parse_of 30 (symbol_of Present) bytes.entry)) result answer.new }
    ensures slots_after { slots.new ≡ slots_after symbol_slots (parse_of 30 (symbol_of Present) bytes.entry) slots.old }
    ensures guid_after { guid.new ≡ slots_after symbol_guid (parse_of 30 (symbol_of Present) bytes.entry) guid.old }
{
    modes::vindaskot_symbol_read_in(bytes, false, slots, guid, answer)
}

#[unsafe(no_mangle)]
pub extern "C" fn vindaskot_symbol_step_2(
    bytes: &[u8],
    cursor: &mut usize,
    slots: &mut [u64; 21],
    guid: &mut [u8; 16],
    answer: &mut [u64; 2],
) -> u32
    ensures tells { Tells (step_told (step_at (symbol_of Present) bytes.entry cursor.old).answer) result answer.new }
    ensures cursor_after { cursor.new ≡ (step_at (symbol_of Present) bytes.entry cursor.old).cursor.at }
    ensures slots_after { slots.new ≡ step_after symbol_slots (step_at (symbol_of Present) bytes.entry cursor.old).answer slots.old }
    ensures guid_after { guid.new ≡ step_after symbol_guid (step_at (symbol_of Present) bytes.entry cursor.old).answer guid.old }
{
    modes::vindaskot_symbol_step_in(bytes, false, cursor, slots, guid, answer)
}

#[unsafe(no_mangle)]
pub extern "C" fn vindaskot_symbol_attribute(
    bytes: &[u8],
    number: usize,
    slots: &mut [u64; 5],
    answer: &mut [u64; 2],
) -> u32
    ensures tells { Tells (record_told (symbol_attribute Present bytes.entry number)) result answer.new }
    ensures slots_after { slots.new ≡ slots_after attribute_slots (symbol_attribute Present bytes.entry number) slots.old }
{
    told::attribute(
        places::of_entry::entry_attribute::<AdsSymbolInfo>(bytes, Mode::Present, number),
        slots,
        answer,
    )
}

#[unsafe(no_mangle)]
pub extern "C" fn vindaskot_symbol_attribute_named(
    bytes: &[u8],
    name: &[u8],
    slots: &mut [u64; 5],
    answer: &mut [u64; 2],
) -> u32
    ensures tells { Tells (record_told (symbol_attribute_named Present bytes.entry name.now)) result answer.new }
    ensures slots_after { slots.new ≡ slots_after attribute_slots (symbol_attribute_named Present bytes.entry name.now) slots.old }
{
    told::attribute(
        places::of_entry::entry_attribute_named::<AdsSymbolInfo>(bytes, Mode::Present, name),
        slots,
        answer,
    )
}

#[unsafe(no_mangle)]
pub extern "C" fn vindaskot_symbol_refactor_info(
    bytes: &[u8],
    number: usize,
    slots: &mut [u64; 5],
    answer: &mut [u64; 2],
) -> u32
    ensures tells { Tells (record_told (symbol_refactor_info Present bytes.entry number)) result answer.new }
    ensures slots_after { slots.new ≡ slots_after refactor_slots (symbol_refactor_info Present bytes.entry number) slots.old }
{
    told::refactor(
        places::of_entry::symbol_refactor_info(bytes, Mode::Present, number),
        slots,
        answer,
    )
}

#[unsafe(no_mangle)]
pub extern "C" fn vindaskot_field_read(
    bytes: &[u8],
    slots: &mut [u64; 17],
    guid: &mut [u8; 16],
    answer: &mut [u64; 2],
) -> u32
    ensures tells { Tells (record_told (parse_of 42 (field_of Present) bytes.entry)) result answer.new }
    ensures slots_after { slots.new ≡ slots_after field_slots (parse_of 42 (field_of Present) bytes.entry) slots.old }
    ensures guid_after { guid.new ≡ slots_after field_guid (parse_of 42 (field_of Present) bytes.entry) guid.old }
{
    told::records::read::<AdsFieldInfo>(bytes, Mode::Present, slots, guid, answer)
}

#[unsafe(no_mangle)]
pub extern "C" fn vindaskot_field_step(
    bytes: &[u8],
    cursor: &mut usize,
    slots: &mut [u64; 17],
    guid: &mut [u8; 16],
    answer: &mut [u64; 2],
) -> u32
    ensures tells { Tells (step_told (step_at (field_of Present) bytes.entry cursor.old).answer) result answer.new }
    ensures cursor_after { cursor.new ≡ (step_at (field_of Present) bytes.entry cursor.old).cursor.at }
    ensures slots_after { slots.new ≡ step_after field_slots (step_at (field_of Present) bytes.entry cursor.old).answer slots.old }
    ensures guid_after { guid.new ≡ step_after field_guid (step_at (field_of Present) bytes.entry cursor.old).answer guid.old }
{
    told::records::step::<AdsFieldInfo>(bytes, Mode::Present, cursor, slots, guid, answer)
}

#[unsafe(no_mangle)]
pub extern "C" fn vindaskot_field_attribute(
    bytes: &[u8],
    number: usize,
    slots: &mut [u64; 5],
    answer: &mut [u64; 2],
) -> u32
    ensures tells { Tells (record_told (field_attribute Present bytes.entry number)) result answer.new }
    ensures slots_after { slots.new ≡ slots_after attribute_slots (field_attribute Present bytes.entry number) slots.old }
{
    told::attribute(
        places::of_entry::entry_attribute::<AdsFieldInfo>(bytes, Mode::Present, number),
        slots,
        answer,
    )
}

#[unsafe(no_mangle)]
pub extern "C" fn vindaskot_field_attribute_named(
    bytes: &[u8],
    name: &[u8],
    slots: &mut [u64; 5],
    answer: &mut [u64; 2],
) -> u32
    ensures tells { Tells (record_told (field_attribute_named Present bytes.entry name.now)) result answer.new }
    ensures slots_after { slots.new ≡ slots_after attribute_slots (field_attribute_named Present bytes.entry name.now) slots.old }
{
    told::attribute(
        places::of_entry::entry_attribute_named::<AdsFieldInfo>(bytes, Mode::Present, name),
        slots,
        answer,
    )
}

#[unsafe(no_mangle)]
pub extern "C" fn vindaskot_walk(
    bytes: &[u8],
    allowed: usize,
    cursor: &mut usize,
    steps: &mut usize,
    answer: &mut [u64; 2],
) -> u32
    ensures tells { Tells (end_told (bounded_walk bytes.now cursor.old allowed).end) result answer.new }
    ensures cursor_after { cursor.new ≡ (bounded_walk bytes.now cursor.old allowed).cursor }
    ensures steps_after { steps.new ≡ (bounded_walk bytes.now cursor.old allowed).steps }
{
    let from = *cursor;
    told::walked(
        entry::bounded_walk(bytes, from, allowed),
        cursor,
        steps,
        answer,
    )
}

#[unsafe(no_mangle)]
pub extern "C" fn vindaskot_attribute_read(
    bytes: &[u8],
    slots: &mut [u64; 5],
    answer: &mut [u64; 2],
) -> u32
    ensures tells { Tells (record_told (attribute_alone Present bytes.entry)) result answer.new }
    ensures slots_after { slots.new ≡ slots_after attribute_slots (attribute_alone Present bytes.entry) slots.old }
{
    told::attribute(
        places::alone::attribute_alone(bytes, Mode::Present),
        slots,
        answer,
    )
}

#[unsafe(no_mangle)]
pub extern "C" fn vindaskot_refactor_read(
    bytes: &[u8],
    slots: &mut [u64; 5],
    answer: &mut [u64; 2],
) -> u32
    ensures tells { Tells (record_told (refactor_alone Present bytes.entry)) result answer.new }
    ensures slots_after { slots.new ≡ slots_after refactor_slots (refactor_alone Present bytes.entry) slots.old }
{
    told::refactor(
        places::alone::refactor_alone(bytes, Mode::Present),
        slots,
        answer,
    )
}

#[unsafe(no_mangle)]
pub extern "C" fn vindaskot_chain_read(bytes: &[u8], answer: &mut [u64; 2]) -> u32
    ensures { Tells (numbers_told (chain_read Present bytes.entry)) result answer.new }
{
    told::numbers(places::alone::chain_read(bytes, Mode::Present), answer)
}

#[unsafe(no_mangle)]
pub extern "C" fn vindaskot_chain_record(
    bytes: &[u8],
    number: usize,
    slots: &mut [u64; 5],
    answer: &mut [u64; 2],
) -> u32
    ensures tells { Tells (record_told (chain_record Present bytes.entry number)) result answer.new }
    ensures slots_after { slots.new ≡ slots_after refactor_slots (chain_record Present bytes.entry number) slots.old }
{
    told::refactor(
        places::alone::chain_record(bytes, Mode::Present, number),
        slots,
        answer,
    )
}

#[unsafe(no_mangle)]
pub extern "C" fn vindaskot_symbol_flags_read(bytes: &[u8], answer: &mut [u64; 2]) -> u32
    ensures { Tells (number_told (map_ok (λ flags. flags.0) (symbol_flags_of bytes.now))) result answer.new }
{
    let word = AdsSymbolFlags::try_from_slice(bytes).map(|flags| flags.0 as usize);
    told::number(word, answer)
}

#[unsafe(no_mangle)]
pub extern "C" fn vindaskot_symbol2_flags_read(bytes: &[u8], answer: &mut [u64; 2]) -> u32
    ensures { Tells (number_told (map_ok (λ flags. flags.0) (symbol2_flags_of bytes.now))) result answer.new }
{
    let word = AdsSymbol2Flags::try_from_slice(bytes).map(|flags| flags.0 as usize);
    told::number(word, answer)
}

#[unsafe(no_mangle)]
pub extern "C" fn vindaskot_type_flags_read(bytes: &[u8], answer: &mut [u64; 2]) -> u32
    ensures { Tells (number_told (map_ok (λ flags. flags.0) (type_flags_of bytes.now))) result answer.new }
{
    let word = AdsTypeFlags::try_from_slice(bytes).map(|flags| flags.0 as usize);
    told::number(word, answer)
}

#[unsafe(no_mangle)]
pub extern "C" fn vindaskot_attribute_write(
    name: &[u8],
    value: &[u8],
    out: &mut [u8],
    answer: &mut [u64; 2],
) -> u32
    ensures { WritesTold (attribute_writing (record { name = name.now; value = value.now })) out.old out.new result answer.new }
{
    let attribute = AdsAttribute { name, value };
    told::number(attribute.write(out), answer)
}

#[unsafe(no_mangle)]
pub extern "C" fn vindaskot_refactor_write(
    count: u32,
    has_next: bool,
    name: &[u8],
    out: &mut [u8],
    answer: &mut [u64; 2],
) -> u32
    ensures { WritesTold (info_writing count has_next name.now) out.old out.new result answer.new }
{
    let info = AdsRefactorInfo {
        refactor_count: count,
        next_refactor_info: has_next,
        name,
    };
    told::number(info.write_with_next(has_next, out), answer)
}

#[unsafe(no_mangle)]
pub extern "C" fn vindaskot_refactor_block_write(
    count: usize,
    block: &[u8],
    out: &mut [u8],
    answer: &mut [u64; 2],
) -> u32
    ensures { WritesTold (entries_writing count block.entry) out.old out.new result answer.new }
{
    told::number(refactor::write_entries(count, block, out), answer)
}

// The GUID that is given: no bytes are none, 16 are one.
#[tactic(auto, unfolding(crate::specs::Lent::lent_guid))]
fn lent_guid(bytes: &[u8]) -> Result<Option<[u8; 16]>, Refusal>
    ensures { result ≡ lent_guid bytes.now }
{
    let present = bytes.len();
    if present == 0 {
        return Ok(None);
    }
    if present == 16
        && let Some((guid, _)) = bytes.split_first_chunk::<16>()
    {
        return Ok(Some(*guid));
    }
    Err(Refusal::UnexpectedLength {
        needed: 16,
        present,
    })
}

#[unsafe(no_mangle)]
pub extern "C" fn vindaskot_symbol_write_2(
    index_group: u32,
    index_offset: u32,
    size: u32,
    data_type_id: u32,
    flags: u16,
    high: u16,
    extended_flags: u32,
    guid: &[u8],
    name: &[u8],
    type_name: &[u8],
    comment: &[u8],
    count: usize,
    block: &[u8],
    links: usize,
    chain: &[u8],
    out: &mut [u8],
    answer: &mut [u64; 2],
) -> u32
    ensures { WritesTold (and_then (lent_guid guid.now) (λ given. symbol_written (new_symbol index_group index_offset size data_type_id flags high extended_flags given name.entry type_name.entry comment.entry count block.entry links chain.entry))) out.old out.new result answer.new }
{
    let given = match lent_guid(guid) {
        Ok(given) => given,
        Err(why) => return told::refused(why, answer),
    };
    let symbol = NewSymbol {
        index_group: IndexGroup(index_group),
        index_offset: IndexOffset(index_offset),
        size,
        data_type_id,
        flags: AdsSymbolFlags(flags),
        high,
        name,
        type_name,
        comment,
        guid: given,
        attributes: Block {
            count,
            bytes: block,
        },
        extended_flags: AdsSymbol2Flags(extended_flags),
        refactor_infos: Block {
            count: links,
            bytes: chain,
        },
    };
    told::number(symbol.write(out), answer)
}

#[unsafe(no_mangle)]
pub extern "C" fn vindaskot_field_write(
    version: u32,
    hash_value: u32,
    type_hash_value: u32,
    size: u32,
    offset: u32,
    type_id: u32,
    flags: u32,
    guid: &[u8],
    name: &[u8],
    type_name: &[u8],
    comment: &[u8],
    count: usize,
    block: &[u8],
    out: &mut [u8],
    answer: &mut [u64; 2],
) -> u32
    ensures { WritesTold (and_then (lent_guid guid.now) (λ given. field_written (new_field version hash_value type_hash_value size offset type_id flags given name.entry type_name.entry comment.entry count block.entry))) out.old out.new result answer.new }
{
    let given = match lent_guid(guid) {
        Ok(given) => given,
        Err(why) => return told::refused(why, answer),
    };
    let field = NewField {
        version,
        hash_value,
        type_hash_value,
        size,
        offset,
        type_id,
        flags: AdsTypeFlags(flags),
        name,
        type_name,
        comment,
        guid: given,
        attributes: Block {
            count,
            bytes: block,
        },
    };
    told::number(field.write(out), answer)
}

#[unsafe(no_mangle)]
pub extern "C" fn vindaskot_room(length: usize, answer: &mut [u64; 2]) -> u32
    ensures { Tells (number_told (room_for length)) result answer.new }
{
    told::number(room::room(length), answer)
}

#[unsafe(no_mangle)]
pub extern "C" fn vindaskot_index_build(
    bytes: &[u8],
    slots: &mut [u32],
    answer: &mut [u64; 2],
) -> u32
    ensures { WritesTold (indexing (symbol_of Present) bytes.entry) slots.old slots.new result answer.new }
{
    told::number(
        index::build::<AdsSymbolInfo>(bytes, Mode::Present, slots),
        answer,
    )
}

#[unsafe(no_mangle)]
pub extern "C" fn vindaskot_find(bytes: &[u8], name: &[u8], answer: &mut [u64; 2]) -> u32
    ensures { Tells (number_told (find Present bytes.entry name.now)) result answer.new }
{
    told::number(symbol_find::find(bytes, Mode::Present, name), answer)
}

#[unsafe(no_mangle)]
pub extern "C" fn vindaskot_find_indexed(
    bytes: &[u8],
    slots: &[u32],
    name: &[u8],
    answer: &mut [u64; 2],
) -> u32
    ensures { Tells (number_told (find_indexed Present bytes.entry slots.now name.now)) result answer.new }
{
    told::number(
        symbol_find::find_indexed(bytes, Mode::Present, slots, name),
        answer,
    )
}

#[unsafe(no_mangle)]
pub extern "C" fn vindaskot_salvage(
    bytes: &[u8],
    out: &mut [u8],
    runs: &mut [u32],
    answer: &mut [u64; 2],
) -> u32
    ensures { WritesBothTold (salvaging (symbol_of Present) bytes.entry) out.old runs.old out.new runs.new result answer.new }
{
    modes::vindaskot_salvage_in(bytes, false, out, runs, answer)
}

#[unsafe(no_mangle)]
pub extern "C" fn vindaskot_decode(src: &[u8], out: &mut [u8], answer: &mut [u64; 2]) -> u32
    ensures { WritesTold (decoding src.now) out.old out.new result answer.new }
{
    told::number(text::decode(src, out), answer)
}

#[unsafe(no_mangle)]
pub extern "C" fn vindaskot_encode(src: &[u8], out: &mut [u8], answer: &mut [u64; 2]) -> u32
    ensures { WritesTold (encoding src.now) out.old out.new result answer.new }
{
    told::number(text::encode(src, out), answer)
}
