// The name index of an upload, and what is found through it. Each call takes the mode: there is none that leaves it out.
ghost use Rattle.symbol.specs.Symbol.{symbol_of};
ghost use Rattle.data_type.specs.DataType.{type_of};
ghost use Rattle.told.specs.Told.{WritesTold, mode_of};
ghost use Rattle.name_index.specs.Branching.{branching, HalvesBranch};
ghost use Rattle.name_index.specs.Index.{name_indexing, Halves};
ghost use Rattle.named.specs.Kinds.{symbol_places, field_places};
ghost use Rattle.vindaskot.specs.Halved.{TellsOf};

use data_type::AdsDataTypeInfo;
use symbol::AdsSymbolInfo;
use told::mode;

#[unsafe(no_mangle)]
pub extern "C" fn vindaskot_name_index_build_in(
    bytes: &[u8],
    checked: bool,
    slots: &mut [u32],
    answer: &mut [u64; 2],
) -> u32
    ensures { WritesTold (name_indexing symbol_places (symbol_of (mode_of checked)) bytes.entry) slots.old slots.new result answer.new }
{
    told::number(
        name_index::build::<AdsSymbolInfo>(bytes, mode(checked), slots),
        answer,
    )
}

#[unsafe(no_mangle)]
pub extern "C" fn vindaskot_find_ordered_in(
    bytes: &[u8],
    checked: bool,
    slots: &[u32],
    name: &[u8],
    answer: &mut [u64; 2],
) -> u32
    ensures { TellsOf (Halves symbol_places (symbol_of (mode_of checked)) (λ symbol. symbol.name.now) bytes.entry slots.now name.now) result answer.new }
{
    told::number(
        name_index::find_ordered::<AdsSymbolInfo>(bytes, mode(checked), slots, name),
        answer,
    )
}

#[unsafe(no_mangle)]
pub extern "C" fn vindaskot_branch_in(
    bytes: &[u8],
    checked: bool,
    slots: &[u32],
    text: &[u8],
    out: &mut [u32],
    answer: &mut [u64; 2],
) -> u32
    ensures { WritesTold (branching symbol_places (symbol_of (mode_of checked)) bytes.entry slots.now text.now) out.old out.new result answer.new }
{
    told::number(
        name_index::branch::<AdsSymbolInfo>(bytes, mode(checked), slots, text, out),
        answer,
    )
}

#[unsafe(no_mangle)]
pub extern "C" fn vindaskot_branch_ordered_in(
    bytes: &[u8],
    checked: bool,
    slots: &[u32],
    text: &[u8],
    out: &mut [u32],
    answer: &mut [u64; 2],
) -> u32
    ensures { TellsOf (HalvesBranch symbol_places (symbol_of (mode_of checked)) bytes.entry slots.now text.now out.old out.new) result answer.new }
{
    told::number(
        name_index::branch_ordered::<AdsSymbolInfo>(bytes, mode(checked), slots, text, out),
        answer,
    )
}

#[unsafe(no_mangle)]
pub extern "C" fn vindaskot_type_name_index_build_in(
    bytes: &[u8],
    checked: bool,
    slots: &mut [u32],
    answer: &mut [u64; 2],
) -> u32
    ensures { WritesTold (name_indexing field_places (type_of (mode_of checked)) bytes.entry) slots.old slots.new result answer.new }
{
    told::number(
        name_index::build::<AdsDataTypeInfo>(bytes, mode(checked), slots),
        answer,
    )
}

#[unsafe(no_mangle)]
pub extern "C" fn vindaskot_type_find_ordered_in(
    bytes: &[u8],
    checked: bool,
    slots: &[u32],
    name: &[u8],
    answer: &mut [u64; 2],
) -> u32
    ensures { TellsOf (Halves field_places (type_of (mode_of checked)) (λ r. r.field.name.now) bytes.entry slots.now name.now) result answer.new }
{
    told::number(
        name_index::find_ordered::<AdsDataTypeInfo>(bytes, mode(checked), slots, name),
        answer,
    )
}

#[unsafe(no_mangle)]
pub extern "C" fn vindaskot_type_branch_in(
    bytes: &[u8],
    checked: bool,
    slots: &[u32],
    text: &[u8],
    out: &mut [u32],
    answer: &mut [u64; 2],
) -> u32
    ensures { WritesTold (branching field_places (type_of (mode_of checked)) bytes.entry slots.now text.now) out.old out.new result answer.new }
{
    told::number(
        name_index::branch::<AdsDataTypeInfo>(bytes, mode(checked), slots, text, out),
        answer,
    )
}

#[unsafe(no_mangle)]
pub extern "C" fn vindaskot_type_branch_ordered_in(
    bytes: &[u8],
    checked: bool,
    slots: &[u32],
    text: &[u8],
    out: &mut [u32],
    answer: &mut [u64; 2],
) -> u32
    ensures { TellsOf (HalvesBranch field_places (type_of (mode_of checked)) bytes.entry slots.now text.now out.old out.new) result answer.new }
{
    told::number(
        name_index::branch_ordered::<AdsDataTypeInfo>(bytes, mode(checked), slots, text, out),
        answer,
    )
}
