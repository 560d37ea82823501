//! The writer of a single attribute.
ghost use Rattle.std.specs.Prelude.{◌≡◌, ◌≤◌, Ok, MatchResult, OnOk, length};
ghost use Rattle.part.specs.Outcome.{and_then};
ghost use Rattle.writing.specs.Writing.{Writes};
ghost use Rattle.writing.specs.Owned.{NotWritten};
ghost use Rattle.attribute.specs.Told.{told_of};
ghost use Rattle.attribute.specs.Writing.{length_checked, lengths_checked, attribute_writing};

use crate::AdsAttribute;
use refusal::Refusal;
use std::alloc::Allocator;
use writing::WriteError;

/// What a length of 1 byte holds at most.
const MOST: usize = 255;

fn check_length(actual: usize) -> Result<(), Refusal>
    ensures { result ≡ length_checked actual }
{
    if actual > MOST {
        return Err(Refusal::TooLong { most: MOST, actual });
    }
    Ok(())
}

impl<'a> AdsAttribute<'a> {
    #[tactic(auto, unfolding(crate::specs::Writing::lengths_checked))]
    fn check_lengths(&self) -> Result<(), Refusal>
        ensures value { result ≡ lengths_checked (told_of self.now) }
        ensures name_fits { OnOk result (length self.now.name.now ≤ 255) }
        ensures value_fits { OnOk result (length self.now.value.now ≤ 255) }
    {
        check_length(self.name.len())?;
        check_length(self.value.len())
    }

    /// How many bytes it is written in, or the refusal of its writer: 7 for a name, then for a value, of more than 255 bytes.
    #[tactic(auto, unfolding(crate::specs::Writing::attribute_writing, crate::specs::Writing::attribute_bytes))]
    pub fn wire_size(&self) -> Result<usize, Refusal>
        ensures { result ≡ and_then (attribute_writing (told_of self.now)) (λ bytes. Ok (length bytes)) }
    {
        self.check_lengths()?;
        Ok(self.name.len() + self.value.len() + 4)
    }

    /// Writes it from place 0 of a lent buffer, and tells in how many bytes. Refuses by 7 as `wire_size` does, then by 6,
    /// with the buffer left as it was.
    pub fn write(&self, out: &mut [u8]) -> Result<usize, Refusal>
        ensures { Writes (attribute_writing (told_of self.now)) out.old out.new result }
    {
        self.check_lengths()?;
        let needed = self.name.len() + self.value.len() + 4;
        let lent = out.len();
        if lent < needed {
            return Err(Refusal::OutputTooSmall { needed, lent });
        }
        let a = le::put_u8(out, 0, self.name.len() as u8);
        let b = le::put_u8(out, a, self.value.len() as u8);
        let c = le::put_bytes(out, b, self.name);
        let d = le::put_u8(out, c, 0);
        let e = le::put_bytes(out, d, self.value);
        Ok(le::put_u8(out, e, 0))
    }

    /// The attribute, in memory of its own. Refuses as `wire_size` does, and where there is no memory for it.
    pub fn to_vec<A: Allocator>(&self, alloc: A) -> Result<Vec<u8, A>, WriteError>
        ensures { MatchResult result (λ v. attribute_writing (told_of self.now) ≡ Ok v.items) (NotWritten (attribute_writing (told_of self.now))) }
    {
        let size = self.wire_size()?;
        let mut out = vec![in alloc; 0; size]?;
        self.write(&mut out)?;
        Ok(out)
    }
}
