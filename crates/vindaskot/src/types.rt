// The calls about whole data types, and finding one by its name. Each takes the mode: there is none that leaves it out.
ghost use Rattle.std.specs.Prelude.{◌≡◌};
ghost use Rattle.walk.specs.Step.{parse_of, step_at};
ghost use Rattle.data_type.specs.DataType.{type_of};
ghost use Rattle.data_type.specs.List.{members_written};
ghost use Rattle.index.specs.Index.{indexing};
ghost use Rattle.type_find.specs.Find.{find, find_indexed};
ghost use Rattle.places.specs.Entry.{type_attribute, type_attribute_named};
ghost use Rattle.told.specs.Told.{Tells, WritesTold, mode_of, number_told, record_told, step_told};
ghost use Rattle.told.specs.Slots.{slots_after, step_after, attribute_slots};
ghost use Rattle.told.specs.Asked.{type_array, type_member};
ghost use Rattle.told.specs.TypeSlots.{type_slots, type_guid, array_slots, member_slots, member_guid, path_slots};

use data_type::AdsDataTypeInfo;
use told::mode;

#[unsafe(no_mangle)]
pub extern "C" fn vindaskot_type_read_in(
    bytes: &[u8],
    checked: bool,
    slots: &mut [u64; 21],
    guid: &mut [u8; 16],
    answer: &mut [u64; 2],
) -> u32
    ensures tells { Tells (record_told (parse_of 42 (type_of (mode_of checked)) bytes.entry)) result answer.new }
    ensures slots_after { slots.new ≡ slots_after type_slots (parse_of 42 (type_of (mode_of checked)) bytes.entry) slots.old }
    ensures guid_after { guid.new ≡ slots_after type_guid (parse_of 42 (type_of (mode_of checked)) bytes.entry) guid.old }
{
    told::records::read::<AdsDataTypeInfo>(bytes, mode(checked), slots, guid, answer)
}

#[unsafe(no_mangle)]
pub extern "C" fn vindaskot_type_step_in(
    bytes: &[u8],
    checked: bool,
    cursor: &mut usize,
    slots: &mut [u64; 21],
    guid: &mut [u8; 16],
    answer: &mut [u64; 2],
) -> u32
    ensures tells { Tells (step_told (step_at (type_of (mode_of checked)) bytes.entry cursor.old).answer) result answer.new }
    ensures cursor_after { cursor.new ≡ (step_at (type_of (mode_of checked)) bytes.entry cursor.old).cursor.at }
    ensures slots_after { slots.new ≡ step_after type_slots (step_at (type_of (mode_of checked)) bytes.entry cursor.old).answer slots.old }
    ensures guid_after { guid.new ≡ step_after type_guid (step_at (type_of (mode_of checked)) bytes.entry cursor.old).answer guid.old }
{
    told::records::step::<AdsDataTypeInfo>(bytes, mode(checked), cursor, slots, guid, answer)
}

#[unsafe(no_mangle)]
pub extern "C" fn vindaskot_type_array_in(
    bytes: &[u8],
    checked: bool,
    number: usize,
    slots: &mut [u64; 2],
    answer: &mut [u64; 2],
) -> u32
    ensures tells { Tells (record_told (type_array (mode_of checked) bytes.entry number)) result answer.new }
    ensures slots_after { slots.new ≡ slots_after array_slots (type_array (mode_of checked) bytes.entry number) slots.old }
{
    told::types::array(bytes, mode(checked), number, slots, answer)
}

#[unsafe(no_mangle)]
pub extern "C" fn vindaskot_type_attribute_in(
    bytes: &[u8],
    checked: bool,
    number: usize,
    slots: &mut [u64; 5],
    answer: &mut [u64; 2],
) -> u32
    ensures tells { Tells (record_told (type_attribute (mode_of checked) bytes.entry number)) result answer.new }
    ensures slots_after { slots.new ≡ slots_after attribute_slots (type_attribute (mode_of checked) bytes.entry number) slots.old }
{
    told::attribute(
        places::of_entry::entry_attribute::<AdsDataTypeInfo>(bytes, mode(checked), number),
        slots,
        answer,
    )
}

#[unsafe(no_mangle)]
pub extern "C" fn vindaskot_type_attribute_named_in(
    bytes: &[u8],
    checked: bool,
    name: &[u8],
    slots: &mut [u64; 5],
    answer: &mut [u64; 2],
) -> u32
    ensures tells { Tells (record_told (type_attribute_named (mode_of checked) bytes.entry name.now)) result answer.new }
    ensures slots_after { slots.new ≡ slots_after attribute_slots (type_attribute_named (mode_of checked) bytes.entry name.now) slots.old }
{
    told::attribute(
        places::of_entry::entry_attribute_named::<AdsDataTypeInfo>(bytes, mode(checked), name),
        slots,
        answer,
    )
}

#[unsafe(no_mangle)]
pub extern "C" fn vindaskot_type_member_in(
    bytes: &[u8],
    checked: bool,
    number: usize,
    slots: &mut [u64; 21],
    guid: &mut [u8; 16],
    path: &mut [u64; 17],
    answer: &mut [u64; 2],
) -> u32
    ensures tells { Tells (record_told (type_member (mode_of checked) bytes.entry number)) result answer.new }
    ensures slots_after { slots.new ≡ slots_after member_slots (type_member (mode_of checked) bytes.entry number) slots.old }
    ensures guid_after { guid.new ≡ slots_after member_guid (type_member (mode_of checked) bytes.entry number) guid.old }
    ensures path_after { path.new ≡ slots_after path_slots (type_member (mode_of checked) bytes.entry number) path.old }
{
    told::types::member(bytes, mode(checked), number, slots, guid, path, answer)
}

#[unsafe(no_mangle)]
pub extern "C" fn vindaskot_type_members_in(
    bytes: &[u8],
    checked: bool,
    slots: &mut [u64],
    answer: &mut [u64; 2],
) -> u32
    ensures { WritesTold (members_written (mode_of checked) bytes.entry) slots.old slots.new result answer.new }
{
    told::number(data_type::list::list(bytes, mode(checked), slots), answer)
}

#[unsafe(no_mangle)]
pub extern "C" fn vindaskot_type_index_build_in(
    bytes: &[u8],
    checked: bool,
    slots: &mut [u32],
    answer: &mut [u64; 2],
) -> u32
    ensures { WritesTold (indexing (type_of (mode_of checked)) bytes.entry) slots.old slots.new result answer.new }
{
    told::number(
        index::build::<AdsDataTypeInfo>(bytes, mode(checked), slots),
        answer,
    )
}

#[unsafe(no_mangle)]
pub extern "C" fn vindaskot_type_find_in(
    bytes: &[u8],
    checked: bool,
    name: &[u8],
    answer: &mut [u64; 2],
) -> u32
    ensures { Tells (number_told (find (mode_of checked) bytes.entry name.now)) result answer.new }
{
    told::number(type_find::find(bytes, mode(checked), name), answer)
}

#[unsafe(no_mangle)]
pub extern "C" fn vindaskot_type_find_indexed_in(
    bytes: &[u8],
    checked: bool,
    slots: &[u32],
    name: &[u8],
    answer: &mut [u64; 2],
) -> u32
    ensures { Tells (number_told (find_indexed (mode_of checked) bytes.entry slots.now name.now)) result answer.new }
{
    told::number(
        type_find::find_indexed(bytes, mode(checked), slots, name),
        answer,
    )
}
