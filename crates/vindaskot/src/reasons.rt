// Why the sections of a symbol are there or not.
ghost use Rattle.std.specs.Prelude.{◌≡◌};
ghost use Rattle.why.specs.Reasons.{explained};
ghost use Rattle.told.specs.Told.{Tells, record_told};
ghost use Rattle.told.specs.Slots.{slots_after};
ghost use Rattle.told.specs.Reasons.{guid_slots, attributes_slots, extended_slots, chain_slots};

#[unsafe(no_mangle)]
pub extern "C" fn vindaskot_symbol_why(
    bytes: &[u8],
    guid: &mut [u64; 6],
    attributes: &mut [u64; 6],
    extended_flags: &mut [u64; 6],
    chain: &mut [u64; 6],
    answer: &mut [u64; 2],
) -> u32
    ensures tells { Tells (record_told (explained bytes.entry)) result answer.new }
    ensures guid_after { guid.new ≡ slots_after guid_slots (explained bytes.entry) guid.old }
    ensures attributes_after { attributes.new ≡ slots_after attributes_slots (explained bytes.entry) attributes.old }
    ensures extended_after { extended_flags.new ≡ slots_after extended_slots (explained bytes.entry) extended_flags.old }
    ensures chain_after { chain.new ≡ slots_after chain_slots (explained bytes.entry) chain.old }
{
    told::reasons::reasons(
        why::explain(bytes),
        guid,
        attributes,
        extended_flags,
        chain,
        answer,
    )
}
