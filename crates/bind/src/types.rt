//! Through the data types by their names (docs/FORMAT.md, "Binding").
#![tactic(auto)]

ghost use Rattle.std.specs.Prelude.{◌≡◌, ◌≤◌, length};
ghost use Rattle.bind.specs.Found.{type_found};
ghost use Rattle.part.specs.Outcome.{and_then};
ghost use Rattle.bind.specs.Binding.{says_again, rests, at_type, to_type, to_part, settled, along};

use crate::Upload;
use crate::reading::{self, Entry};
use crate::steps::{Here, Way};
use data_type::AdsDataTypeInfo;
use path::Part;
use refusal::{MOST_ALIASES, Mode, Refusal};

/// The data types of a controller, and how they are read.
#[derive(Clone, Copy)]
pub struct NamedTypes<'a> {
    pub upload: Upload<'a>,
    pub mode: Mode,
}

// Whether a data type says again of an array what the entry says of which it is the type.
#[tactic(auto, unfolding(crate::specs::Binding::says_again))]
fn says_again(entry: &Entry<'_>, data_type: &Entry<'_>) -> bool
    ensures { result ≡ says_again entry.now data_type.now }
{
    if entry.arrays.is_empty() {
        return false;
    }
    if data_type.size != entry.size {
        return false;
    }
    data_type.arrays == entry.arrays
}

// Whether an entry has dimensions left or sub-items.
fn rests(here: &Here<'_>) -> bool
    ensures { result ≡ rests here.now }
{
    here.left.len() > 7 || here.entry.items.count > 0
}

// The flag that says that an entry is a pointer, or 0.
fn pointer_of(here: &Here<'_>) -> usize
    ensures { result ≡ here.now.entry.pointer }
{
    here.entry.pointer as usize
}

impl<'a> NamedTypes<'a> {
    // Where the data type of a name starts.
    #[tactic(auto, unfolding(crate::specs::Found::type_found))]
    fn find(self, name: &[u8]) -> Result<usize, Refusal>
        ensures { result ≡ type_found self.entry.mode self.entry.upload name.now }
    {
        self.upload.find::<AdsDataTypeInfo>(self.mode, name)
    }

    // At the same place the data type that starts at a place of the upload.
    #[tactic(auto, unfolding(crate::specs::Binding::at_type))]
    fn at_type(self, here: &Here<'a>, start: usize, at: usize) -> Result<Here<'a>, Refusal>
        ensures { result ≡ at_type here.now self.entry.upload.bytes start at }
    {
        let bytes = self.upload.bytes;
        let entry = reading::type_entry(reading::behind(bytes, start), bytes.len());
        let gone = if says_again(&here.entry, &entry) {
            entry.arrays.len()
        } else {
            0
        };
        if entry.mark != 0 {
            return Err(Refusal::NoOffset {
                place: at,
                flag: entry.mark as usize,
            });
        }
        Ok(Here {
            entry,
            offset: here.offset,
            bit: here.bit,
            size: entry.size,
            left: reading::behind(entry.arrays, gone),
        })
    }

    // The data type of an entry's type name.
    #[tactic(auto, unfolding(crate::specs::Binding::to_type))]
    fn to_type(self, here: &Here<'a>, at: usize) -> Result<Here<'a>, Refusal>
        ensures { result ≡ to_type (type_found self.entry.mode self.entry.upload) self.entry.upload.bytes here.now at }
    {
        match self.find(here.entry.type_name) {
            Ok(start) => self.at_type(here, start, at),
            Err(_) => Err(Refusal::NoSuchType { place: at }),
        }
    }

    // An entry that has dimensions left or sub-items; else its data type, and so on. A pointer has none.
    #[tactic(auto, using(crate::proofs::Along::one_type))]
    fn settled(self, start: Here<'a>, at: usize) -> Result<Here<'a>, Refusal>
        ensures { result ≡ settled (type_found self.entry.mode self.entry.upload) self.entry.upload.bytes 16 start.entry at }
    {
        let mut here = start;
        let mut more = MOST_ALIASES;
        while !rests(&here) {
            let flag = pointer_of(&here);
            if flag != 0 {
                return Err(Refusal::NoOffset { place: at, flag });
            }
            if more == 0 {
                return Err(Refusal::TooManyAliases { place: at });
            }
            here = self.to_type(&here, at)?;
            more -= 1;
        }
        Ok(here)
    }

    // To what has parts, and there to the part that stands at a place of the path.
    fn to_part_of(self, here: Here<'a>, part: Part<'_>, at: usize) -> Result<Here<'a>, Refusal>
        ensures { result ≡ and_then (settled (type_found self.entry.mode self.entry.upload) self.entry.upload.bytes 16 here.entry at) (λ next. to_part next part.entry at) }
    {
        self.settled(here, at)?.to_part(part, at)
    }

    /// Along what is left of a path that is so long.
    #[tactic(auto, using(crate::proofs::Along::at_end, crate::proofs::Along::one_part))]
    pub fn along(self, long: usize, start: Way<'a, '_>) -> Result<Here<'a>, Refusal>
        requires { long ≤ 16777216 }
        ensures { result ≡ along (type_found self.entry.mode self.entry.upload) self.entry.upload.bytes long (length start.entry.rest.now) start.entry.here start.entry.rest }
    {
        let mut way = start;
        while !way.rest.is_empty() {
            let at = (long + 1).saturating_sub(way.rest.len());
            let split = match path::first_part(way.rest) {
                Ok(split) => split,
                Err(left) => {
                    return Err(Refusal::BadPath {
                        place: long.saturating_sub(left),
                    });
                }
            };
            way.here = self.to_part_of(way.here, split.part, at)?;
            way.rest = split.rest;
        }
        Ok(way.here)
    }
}
