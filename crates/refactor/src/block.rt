//! Blocks of refactor records, as writers of entries take them.
ghost use Rattle.std.specs.Prelude.{◌≡◌};
ghost use Rattle.refactor.specs.Block.{good_of, block_checked};

use crate::{RefactorInfos, first};
use refusal::Refusal;

/// The bytes after the good record at the start of some bytes, if there is one that tells rightly whether another follows.
#[tactic(auto, using(crate::proofs::Turn::room), unfolding(crate::specs::Block::good_of))]
fn good(bytes: &[u8], follows: bool) -> Option<&[u8]>
    ensures { result ≡ good_of bytes.entry follows }
{
    let Ok((info, next)) = first(bytes) else {
        return None
    };
    if le::first_u32(bytes) != info.refactor_count
        || info.next_refactor_info != follows
        || bytes[6 + info.name.len()] != 0
    {
        return None;
    }
    Some(next)
}

/// Refuses a block by 9 unless it is exactly its count of good records: accepted by their reader, with end byte 0,
/// no packed bit outside the mask, and the follower's bit set exactly in those that are not the last.
#[tactic(auto, unfolding(crate::specs::Block::exact))]
pub fn check_block(count: usize, block: &[u8]) -> Result<(), Refusal>
    ensures { result ≡ block_checked count block.entry }
{
    let mut rest = RefactorInfos {
        bytes: block,
        count,
    };
    while rest.count > 0 {
        rest.count -= 1;
        let Some(next) = good(rest.bytes, rest.count > 0) else {
            return Err(Refusal::BadBlock {
                count,
                good: count - rest.count - 1,
            })
        };
        rest.bytes = next;
    }
    if !rest.bytes.is_empty() {
        return Err(Refusal::BadBlock { count, good: count });
    }
    Ok(())
}
