//! Blocks of attributes, as writers of entries take them.
ghost use Rattle.std.specs.Prelude.{◌≡◌, ◌+◌, ◌*◌, ◌≤◌, IfOk, OnOk, length};
ghost use Rattle.attribute.specs.Block.{good_of, block_checked};

use crate::{Attributes, first};
use refusal::Refusal;

/// The bytes after the good attribute at the start of some bytes.
#[tactic(auto, using(crate::proofs::Room::room), unfolding(crate::specs::Block::good_of))]
fn good(bytes: &[u8]) -> Result<&[u8], Refusal>
    ensures value { result ≡ good_of bytes.entry }
    ensures small { IfOk result (λ next. length bytes.now ≤ length next.now + 514) }
{
    let (_, next) = first(bytes)?;
    Attributes { bytes, count: 1 }.ends_from(0)?;
    Ok(next)
}

/// Refuses a block by 9 unless it is exactly its count of good attributes: accepted by their reader, with end bytes 0.
#[tactic(auto, unfolding(crate::specs::Block::exact))]
pub fn check_block(count: usize, block: &[u8]) -> Result<(), Refusal>
    ensures value { result ≡ block_checked count block.entry }
    ensures small { OnOk result (length block.now ≤ 514 * count) }
{
    let mut rest = Attributes {
        bytes: block,
        count,
    };
    while rest.count > 0 {
        let Ok(next) = good(rest.bytes) else {
            return Err(Refusal::BadBlock {
                count,
                good: count - rest.count,
            })
        };
        rest.bytes = next;
        rest.count -= 1;
    }
    if !rest.bytes.is_empty() {
        return Err(Refusal::BadBlock { count, good: count });
    }
    Ok(())
}
