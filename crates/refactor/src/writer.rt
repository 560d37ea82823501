//! The writers of a single refactor record, and of a block of them behind its count.
ghost use Rattle.std.specs.Prelude.{◌≡◌, Ok, MatchResult, length};
ghost use Rattle.part.specs.Outcome.{and_then};
ghost use Rattle.writing.specs.Writing.{Writes};
ghost use Rattle.writing.specs.Owned.{NotWritten};
ghost use Rattle.refactor.specs.Writing.{packed_of, info_writing, entries_writing};

use crate::AdsRefactorInfo;
use refusal::Refusal;
use std::alloc::Allocator;
use writing::WriteError;

#[tactic(auto, unfolding(crate::specs::Writing::packed_of))]
fn packed(count: u32, has_next: bool) -> u32
    ensures { result ≡ packed_of count has_next }
{
    let masked = count & AdsRefactorInfo::REFACTOR_COUNT_MASK;
    if has_next {
        return masked | AdsRefactorInfo::NEXT_REFACTOR_INFO_MASK;
    }
    masked
}

impl<'a> AdsRefactorInfo<'a> {
    /// How many bytes it is written in, or the refusal of its writer: 7 for a name of more than 65,535 bytes.
    #[tactic(auto, unfolding(crate::specs::Writing::info_writing, crate::specs::Writing::info_bytes))]
    pub fn wire_size(&self) -> Result<usize, Refusal>
        ensures { result ≡ and_then (info_writing self.now.refactor_count self.now.next_refactor_info self.now.name.now) (λ bytes. Ok (length bytes)) }
    {
        writing::check_count(self.name.len())?;
        Ok(self.name.len() + 7)
    }

    /// Writes it from place 0 of a lent buffer, as one that another follows or as the last, and tells in how many bytes.
    /// Refuses by 7 for the name, then by 6, with the buffer left as it was. The bit of a follower is written too where the
    /// count has it.
    pub fn write_with_next(&self, has_next: bool, out: &mut [u8]) -> Result<usize, Refusal>
        ensures { Writes (info_writing self.now.refactor_count has_next self.now.name.now) out.old out.new result }
    {
        writing::check_count(self.name.len())?;
        let needed = self.name.len() + 7;
        let lent = out.len();
        if lent < needed {
            return Err(Refusal::OutputTooSmall { needed, lent });
        }
        let a = le::put_u32(out, 0, packed(self.refactor_count, has_next));
        let b = le::put_u16(out, a, self.name.len() as u16);
        let c = le::put_bytes(out, b, self.name);
        Ok(le::put_u8(out, c, 0))
    }

    /// The record, as one that another follows or as the last, in memory of its own. Refuses as `wire_size` does, and where
    /// there is no memory for it.
    #[tactic(auto, unfolding(crate::specs::Writing::info_writing, crate::specs::Writing::info_bytes))]
    pub fn to_vec_with_next<A: Allocator>(
        &self,
        has_next: bool,
        alloc: A,
    ) -> Result<Vec<u8, A>, WriteError>
        ensures { MatchResult result (λ v. info_writing self.now.refactor_count has_next self.now.name.now ≡ Ok v.items) (NotWritten (info_writing self.now.refactor_count has_next self.now.name.now)) }
    {
        writing::check_count(self.name.len())?;
        let mut out = vec![in alloc; 0; self.name.len() + 7]?;
        self.write_with_next(has_next, &mut out)?;
        Ok(out)
    }
}

/// Writes a block behind its 2-byte count, which no reader of chains looks at, and tells in how many bytes.
/// Refuses by 7 for the count, 9, 5, 6, with the buffer left as it was.
pub fn write_entries(count: usize, block: &[u8], out: &mut [u8]) -> Result<usize, Refusal>
    ensures { Writes (entries_writing count block.entry) out.old out.new result }
{
    writing::check_count(count)?;
    crate::check_block(count, block)?;
    let needed = block.len() + 2;
    writing::check_room(needed, out.len())?;
    let a = le::put_u16(out, 0, count as u16);
    Ok(le::put_bytes(out, a, block))
}
