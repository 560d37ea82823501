//! What a reader passes over.
ghost use Rattle.std.specs.Prelude.{◌≡◌};
ghost use Rattle.field.specs.Skip.{ahead, after_items};

/// All but so many bytes, or but as many of them as there are.
#[inline(always)]
pub fn ahead(bytes: &[u8], count: usize) -> &[u8]
    ensures { result ≡ ahead bytes.entry count }
{
    &bytes[count.min(bytes.len())..]
}

// Bytes that are left.
#[derive(Drop)]
struct Left<'a> {
    bytes: &'a [u8],
}

/// The bytes after so many items, each of which begins with its length.
#[tactic(auto, using(crate::proofs::Items::items_none, crate::proofs::Items::items_short, crate::proofs::Items::items_step))]
pub fn after_items(bytes: &[u8], count: usize) -> &[u8]
    ensures { result ≡ after_items bytes.entry count }
{
    let mut left = Left { bytes };
    for _ in 0..count {
        if left.bytes.len() < 4 {
            return left.bytes;
        }
        left.bytes = ahead(left.bytes, le::u32_at(left.bytes, 0) as usize);
    }
    left.bytes
}
