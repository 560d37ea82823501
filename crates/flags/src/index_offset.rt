//! The index offset of a symbol, a kind of its own: a record can't take an index group for it. The Rust's index_offset.rs.
ghost use Rattle.std.specs.Prelude.{◌≡◌};
ghost use Rattle.le.specs.Le.{le4, bytes4};

use crate::bytes_of_u32;

#[derive(Clone, Copy, Debug, PartialEq, Eq)]
pub struct IndexOffset(pub u32);

impl IndexOffset {
    pub const LENGTH: usize = 4;

    pub fn new(raw: u32) -> Self
        ensures { result.0 ≡ raw }
    {
        Self(raw)
    }

    pub fn as_u32(self) -> u32
        ensures { result ≡ self.0 }
    {
        self.0
    }

    pub fn to_bytes(self) -> [u8; Self::LENGTH]
        ensures { result ≡ bytes4 self.0 }
    {
        bytes_of_u32(self.0)
    }

    pub fn from_bytes(bytes: [u8; Self::LENGTH]) -> Self
        ensures { result.0 ≡ le4 bytes 0 }
    {
        Self(le::u32_at(&bytes, 0))
    }
}
