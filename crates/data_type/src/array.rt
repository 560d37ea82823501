//! Array records: a dimension of an array each.
ghost use Rattle.std.specs.Prelude.{◌≡◌, ◌≤◌, length};
ghost use Rattle.std.specs.Iterator.{YieldsFirst, MakesProgress, item_count};
ghost use Rattle.part.specs.Slice.{after};
ghost use Rattle.data_type.specs.Array.{first_of, left, behind_first, numbered};

use refusal::Refusal;

/// An array record.
#[derive(Clone, Copy, Debug, PartialEq, Eq)]
pub struct AdsArrayInfo {
    /// The lowest index, as its 32 bits, which a controller may mean with a sign.
    pub lower_bound: u32,
    /// How many elements there are.
    pub elements: u32,
}

/// The array records of an entry, read one by one as they are asked for.
#[derive(Clone, Copy, Debug)]
pub struct ArrayInfos<'a> {
    /// They fill these bytes, 8 each.
    pub bytes: &'a [u8],
    /// How many there are, or as many as the bytes hold.
    pub count: usize,
}

/// The array record at the start of some bytes.
#[inline(always)]
fn first(bytes: &[u8]) -> AdsArrayInfo
    requires { 8 ≤ length bytes.now }
    ensures { result ≡ first_of bytes.now }
{
    AdsArrayInfo {
        lower_bound: le::u32_at(bytes, 0),
        elements: le::u32_at(bytes, 4),
    }
}

/// What stands behind it.
#[inline(always)]
fn behind(bytes: &[u8]) -> &[u8]
    requires { 8 ≤ length bytes.now }
    ensures { result ≡ after bytes.entry 8 }
{
    &bytes[8..]
}

impl Iterator for ArrayInfos<'_> {
    type Item = AdsArrayInfo;

    ghost next_gives = { YieldsFirst left };

    ghost remaining = { item_count left };

    #[tactic(auto, unfolding(crate::specs::Array::listed))]
    fn next(&mut self) -> Option<AdsArrayInfo>
        ensures steps { YieldsFirst left self.old result self.new }
        ensures goes { MakesProgress (λ s. Unit {0}) (item_count left) self.old result self.new }
        ensures moves { self.new ≡ behind_first self.old }
    {
        if self.count == 0 {
            return None;
        }
        if self.bytes.len() < 8 {
            self.count = 0;
            return None;
        }
        let array = first(self.bytes);
        self.bytes = behind(self.bytes);
        self.count -= 1;
        Some(array)
    }
}

impl ArrayInfos<'_> {
    /// The array record with a number, counted from 0; 14 where there is none.
    pub fn get(mut self, number: usize) -> Result<AdsArrayInfo, Refusal>
        ensures { result ≡ numbered self.entry number }
    {
        let count = self.count.min(self.bytes.len() / 8);
        self.nth(number).ok_or(Refusal::NoSuchNumber {
            count,
            asked: number,
        })
    }
}
