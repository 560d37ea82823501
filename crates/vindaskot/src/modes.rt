// The calls in a mode, readers and all that stands on one: each is its namesake of the crate's root with one argument more, by which an end byte
// that is not 0 refuses. Where that is false, it answers as its namesake does.
ghost use Rattle.std.specs.Prelude.{◌≡◌};
ghost use Rattle.walk.specs.Step.{parse_of, step_at};
ghost use Rattle.symbol.specs.Symbol.{symbol_of};
ghost use Rattle.field.specs.Field.{field_of};
ghost use Rattle.index.specs.Index.{indexing};
ghost use Rattle.symbol_find.specs.Find.{find, find_indexed};
ghost use Rattle.salvage.specs.Salvage.{salvaging};
ghost use Rattle.places.specs.Alone.{attribute_alone, refactor_alone, chain_read, chain_record};
ghost use Rattle.places.specs.Entry.{symbol_attribute, symbol_attribute_named, symbol_refactor_info, field_attribute, field_attribute_named};
ghost use Rattle.told.specs.Told.{Tells, WritesTold, WritesBothTold, mode_of, number_told, numbers_told, record_told, step_told};
ghost use Rattle.told.specs.Slots.{slots_after, step_after, symbol_slots, symbol_guid, field_slots, field_guid, attribute_slots, refactor_slots};

use field::AdsFieldInfo;
use symbol::AdsSymbolInfo;
use told::mode;

#[unsafe(no_mangle)]
pub extern "C" fn vindaskot_symbol_read_in(
    bytes: &[u8],
    checked: bool,
    slots: &mut [u64; 21],
    guid: &mut [u8; 16],
    answer: &mut [u64; 2],
) -> u32
    ensures tells { Tells (record_told (parse_of 30 (symbol_of (mode_of checked)) bytes.entry)) result answer.new }
    ensures slots_after { slots.new ≡ slots_after symbol_slots (parse_of 30 (symbol_of (mode_of checked)) bytes.entry) slots.old }
    ensures guid_after { guid.new ≡ slots_after symbol_guid (parse_of 30 (symbol_of (mode_of checked)) bytes.entry) guid.old }
{
    told::records::read::<AdsSymbolInfo>(bytes, mode(checked), slots, guid, answer)
}

#[unsafe(no_mangle)]
pub extern "C" fn vindaskot_symbol_step_in(
    bytes: &[u8],
    checked: bool,
    cursor: &mut usize,
    slots: &mut [u64; 21],
    guid: &mut [u8; 16],
    answer: &mut [u64; 2],
) -> u32
    ensures tells { Tells (step_told (step_at (symbol_of (mode_of checked)) bytes.entry cursor.old).answer) result answer.new }
    ensures cursor_after { cursor.new ≡ (step_at (symbol_of (mode_of checked)) bytes.entry cursor.old).cursor.at }
    ensures slots_after { slots.new ≡ step_after symbol_slots (step_at (symbol_of (mode_of checked)) bytes.entry cursor.old).answer slots.old }
    ensures guid_after { guid.new ≡ step_after symbol_guid (step_at (symbol_of (mode_of checked)) bytes.entry cursor.old).answer guid.old }
{
    told::records::step::<AdsSymbolInfo>(bytes, mode(checked), cursor, slots, guid, answer)
}

#[unsafe(no_mangle)]
pub extern "C" fn vindaskot_symbol_attribute_in(
    bytes: &[u8],
    checked: bool,
    number: usize,
    slots: &mut [u64; 5],
    answer: &mut [u64; 2],
) -> u32
    ensures tells { Tells (record_told (symbol_attribute (mode_of checked) bytes.entry number)) result answer.new }
    ensures slots_after { slots.new ≡ slots_after attribute_slots (symbol_attribute (mode_of checked) bytes.entry number) slots.old }
{
    told::attribute(
        places::of_entry::entry_attribute::<AdsSymbolInfo>(bytes, mode(checked), number),
        slots,
        answer,
    )
}

#[unsafe(no_mangle)]
pub extern "C" fn vindaskot_symbol_attribute_named_in(
    bytes: &[u8],
    checked: bool,
    name: &[u8],
    slots: &mut [u64; 5],
    answer: &mut [u64; 2],
) -> u32
    ensures tells { Tells (record_told (symbol_attribute_named (mode_of checked) bytes.entry name.now)) result answer.new }
    ensures slots_after { slots.new ≡ slots_after attribute_slots (symbol_attribute_named (mode_of checked) bytes.entry name.now) slots.old }
{
    told::attribute(
        places::of_entry::entry_attribute_named::<AdsSymbolInfo>(bytes, mode(checked), name),
        slots,
        answer,
    )
}

#[unsafe(no_mangle)]
pub extern "C" fn vindaskot_symbol_refactor_info_in(
    bytes: &[u8],
    checked: bool,
    number: usize,
    slots: &mut [u64; 5],
    answer: &mut [u64; 2],
) -> u32
    ensures tells { Tells (record_told (symbol_refactor_info (mode_of checked) bytes.entry number)) result answer.new }
    ensures slots_after { slots.new ≡ slots_after refactor_slots (symbol_refactor_info (mode_of checked) bytes.entry number) slots.old }
{
    told::refactor(
        places::of_entry::symbol_refactor_info(bytes, mode(checked), number),
        slots,
        answer,
    )
}

#[unsafe(no_mangle)]
pub extern "C" fn vindaskot_field_read_in(
    bytes: &[u8],
    checked: bool,
    slots: &mut [u64; 17],
    guid: &mut [u8; 16],
    answer: &mut [u64; 2],
) -> u32
    ensures tells { Tells (record_told (parse_of 42 (field_of (mode_of checked)) bytes.entry)) result answer.new }
    ensures slots_after { slots.new ≡ slots_after field_slots (parse_of 42 (field_of (mode_of checked)) bytes.entry) slots.old }
    ensures guid_after { guid.new ≡ slots_after field_guid (parse_of 42 (field_of (mode_of checked)) bytes.entry) guid.old }
{
    told::records::read::<AdsFieldInfo>(bytes, mode(checked), slots, guid, answer)
}

#[unsafe(no_mangle)]
pub extern "C" fn vindaskot_field_step_in(
    bytes: &[u8],
    checked: bool,
    cursor: &mut usize,
    slots: &mut [u64; 17],
    guid: &mut [u8; 16],
    answer: &mut [u64; 2],
) -> u32
    ensures tells { Tells (step_told (step_at (field_of (mode_of checked)) bytes.entry cursor.old).answer) result answer.new }
    ensures cursor_after { cursor.new ≡ (step_at (field_of (mode_of checked)) bytes.entry cursor.old).cursor.at }
    ensures slots_after { slots.new ≡ step_after field_slots (step_at (field_of (mode_of checked)) bytes.entry cursor.old).answer slots.old }
    ensures guid_after { guid.new ≡ step_after field_guid (step_at (field_of (mode_of checked)) bytes.entry cursor.old).answer guid.old }
{
    told::records::step::<AdsFieldInfo>(bytes, mode(checked), cursor, slots, guid, answer)
}

#[unsafe(no_mangle)]
pub extern "C" fn vindaskot_field_attribute_in(
    bytes: &[u8],
    checked: bool,
    number: usize,
    slots: &mut [u64; 5],
    answer: &mut [u64; 2],
) -> u32
    ensures tells { Tells (record_told (field_attribute (mode_of checked) bytes.entry number)) result answer.new }
    ensures slots_after { slots.new ≡ slots_after attribute_slots (field_attribute (mode_of checked) bytes.entry number) slots.old }
{
    told::attribute(
        places::of_entry::entry_attribute::<AdsFieldInfo>(bytes, mode(checked), number),
        slots,
        answer,
    )
}

#[unsafe(no_mangle)]
pub extern "C" fn vindaskot_field_attribute_named_in(
    bytes: &[u8],
    checked: bool,
    name: &[u8],
    slots: &mut [u64; 5],
    answer: &mut [u64; 2],
) -> u32
    ensures tells { Tells (record_told (field_attribute_named (mode_of checked) bytes.entry name.now)) result answer.new }
    ensures slots_after { slots.new ≡ slots_after attribute_slots (field_attribute_named (mode_of checked) bytes.entry name.now) slots.old }
{
    told::attribute(
        places::of_entry::entry_attribute_named::<AdsFieldInfo>(bytes, mode(checked), name),
        slots,
        answer,
    )
}

#[unsafe(no_mangle)]
pub extern "C" fn vindaskot_attribute_read_in(
    bytes: &[u8],
    checked: bool,
    slots: &mut [u64; 5],
    answer: &mut [u64; 2],
) -> u32
    ensures tells { Tells (record_told (attribute_alone (mode_of checked) bytes.entry)) result answer.new }
    ensures slots_after { slots.new ≡ slots_after attribute_slots (attribute_alone (mode_of checked) bytes.entry) slots.old }
{
    told::attribute(
        places::alone::attribute_alone(bytes, mode(checked)),
        slots,
        answer,
    )
}

#[unsafe(no_mangle)]
pub extern "C" fn vindaskot_refactor_read_in(
    bytes: &[u8],
    checked: bool,
    slots: &mut [u64; 5],
    answer: &mut [u64; 2],
) -> u32
    ensures tells { Tells (record_told (refactor_alone (mode_of checked) bytes.entry)) result answer.new }
    ensures slots_after { slots.new ≡ slots_after refactor_slots (refactor_alone (mode_of checked) bytes.entry) slots.old }
{
    told::refactor(
        places::alone::refactor_alone(bytes, mode(checked)),
        slots,
        answer,
    )
}

#[unsafe(no_mangle)]
pub extern "C" fn vindaskot_chain_read_in(bytes: &[u8], checked: bool, answer: &mut [u64; 2]) -> u32
    ensures { Tells (numbers_told (chain_read (mode_of checked) bytes.entry)) result answer.new }
{
    told::numbers(places::alone::chain_read(bytes, mode(checked)), answer)
}

#[unsafe(no_mangle)]
pub extern "C" fn vindaskot_chain_record_in(
    bytes: &[u8],
    checked: bool,
    number: usize,
    slots: &mut [u64; 5],
    answer: &mut [u64; 2],
) -> u32
    ensures tells { Tells (record_told (chain_record (mode_of checked) bytes.entry number)) result answer.new }
    ensures slots_after { slots.new ≡ slots_after refactor_slots (chain_record (mode_of checked) bytes.entry number) slots.old }
{
    told::refactor(
        places::alone::chain_record(bytes, mode(checked), number),
        slots,
        answer,
    )
}

#[unsafe(no_mangle)]
pub extern "C" fn vindaskot_index_build_in(
    bytes: &[u8],
    checked: bool,
    slots: &mut [u32],
    answer: &mut [u64; 2],
) -> u32
    ensures { WritesTold (indexing (symbol_of (mode_of checked)) bytes.entry) slots.old slots.new result answer.new }
{
    told::number(
        index::build::<AdsSymbolInfo>(bytes, mode(checked), slots),
        answer,
    )
}

#[unsafe(no_mangle)]
pub extern "C" fn vindaskot_find_in(
    bytes: &[u8],
    checked: bool,
    name: &[u8],
    answer: &mut [u64; 2],
) -> u32
    ensures { Tells (number_told (find (mode_of checked) bytes.entry name.now)) result answer.new }
{
    told::number(symbol_find::find(bytes, mode(checked), name), answer)
}

#[unsafe(no_mangle)]
pub extern "C" fn vindaskot_find_indexed_in(
    bytes: &[u8],
    checked: bool,
    slots: &[u32],
    name: &[u8],
    answer: &mut [u64; 2],
) -> u32
    ensures { Tells (number_told (find_indexed (mode_of checked) bytes.entry slots.now name.now)) result answer.new }
{
    told::number(
        symbol_find::find_indexed(bytes, mode(checked), slots, name),
        answer,
    )
}

#[unsafe(no_mangle)]
pub extern "C" fn vindaskot_salvage_in(
    bytes: &[u8],
    checked: bool,
    out: &mut [u8],
    runs: &mut [u32],
    answer: &mut [u64; 2],
) -> u32
    ensures { WritesBothTold (salvaging (symbol_of (mode_of checked)) bytes.entry) out.old runs.old out.new runs.new result answer.new }
{
    told::salvaged(
        salvage::salvage::<AdsSymbolInfo>(bytes, mode(checked), out, runs),
        answer,
    )
}
