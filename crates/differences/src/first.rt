//! The first byte in which two runs of bytes differ.
ghost use Rattle.std.specs.Prelude.{◌≡◌, ◌≤◌, length};
ghost use Rattle.differences.specs.First.{common, first_byte};

use values::Value;

// How many bytes two runs have alike at their front.
fn common(one: &[u8], other: &[u8]) -> usize
    ensures { result ≡ common one.now other.now }
{
    let most = one.len().min(other.len());
    for number in 0..most {
        if one[number] != other[number] {
            return number;
        }
    }
    most
}

/// The first byte in which two runs of bytes differ, each with the place in its entry, by the place where the run begins; where one of them
/// only goes on, or neither does, how many bytes they are.
#[tactic(auto, unfolding(crate::specs::First::first_byte))]
pub(crate) fn first_byte<'a>(
    place: usize,
    one: &[u8],
    other_place: usize,
    other: &[u8],
) -> (Value<'a>, Value<'a>)
    ensures { result ≡ first_byte place one.now other_place other.now }
{
    let number = common(one, other);
    match (one.get(number).copied(), other.get(number).copied()) {
        (Some(byte), Some(other_byte)) => {
            let at = place.saturating_add(number);
            let in_other = Value::Byte {
                at: other_place.saturating_add(number),
                byte: other_byte,
            };
            (Value::Byte { at, byte }, in_other)
        }
        _ => (Value::Bytes(one.len()), Value::Bytes(other.len())),
    }
}
