// From a variable's path to its address. The call takes the mode: there is none that leaves it out.
ghost use Rattle.std.specs.Prelude.{◌≡◌};
ghost use Rattle.told.specs.Told.{Tells, mode_of, record_told};
ghost use Rattle.told.specs.Slots.{slots_after};
ghost use Rattle.bind_told.specs.Address.{address_slots, bound};

use bind::Upload;
use told::mode;

#[unsafe(no_mangle)]
pub extern "C" fn vindaskot_bind_in(
    symbols: &[u8],
    checked: bool,
    symbol_starts: &[u32],
    types: &[u8],
    type_starts: &[u32],
    path: &[u8],
    slots: &mut [u64; 9],
    answer: &mut [u64; 2],
) -> u32
    ensures tells { Tells (record_told (bound (mode_of checked) (record { bytes = symbols.entry; slots = symbol_starts.entry }) (record { bytes = types.entry; slots = type_starts.entry }) path.entry)) result answer.new }
    ensures slots_after { slots.new ≡ slots_after (address_slots symbols.entry types.entry) (bound (mode_of checked) (record { bytes = symbols.entry; slots = symbol_starts.entry }) (record { bytes = types.entry; slots = type_starts.entry }) path.entry) slots.old }
{
    let found = bind::bind(
        Upload {
            bytes: symbols,
            slots: symbol_starts,
        },
        Upload {
            bytes: types,
            slots: type_starts,
        },
        mode(checked),
        path,
    );
    bind_told::address(symbols, types, found, slots, answer)
}
