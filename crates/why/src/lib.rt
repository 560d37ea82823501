//! Why each section of a symbol is there or not, and why a list of it shows no more (docs/FORMAT.md, "Why").
#![tactic(auto, unfolding(crate::specs::Reasons::attributes_reason, crate::specs::Reasons::reasons_of))]

ghost use Rattle.std.specs.Prelude.{◌≡◌};
ghost use Rattle.symbol.specs.Symbol.{IsWithin};
ghost use Rattle.why.specs.Reasons.{fixed_reason, attributes_reason, met_chain_reason, chain_reason, reasons_of, explained};

pub mod theorems;

use refactor::RefactorInfos;
use refusal::{Mode, Refusal};
use symbol::AdsSymbolInfo;
use walk::Entry;

/// Why a section is there or not, and why a list shows no more. Places are bytes from the start of the entry.
#[derive(Clone, Copy, Debug, PartialEq, Eq)]
pub enum Reason {
    /// Its flag is not set.
    NotFlagged,
    /// Of a chain alone: its flag stands among the extended flags, and there are none.
    NoExtendedFlags,
    /// It is flagged, and too few bytes are left at the place where it would begin.
    NoRoom {
        place: usize,
        left: usize,
    },
    /// It begins at this place and is shown whole: as many attributes as its count announces, every record of a chain; a GUID and extended flags are one.
    Whole {
        place: usize,
        count: usize,
    },
    /// A record is refused: which of the list, counted from 0, where it begins, and why.
    Refused {
        record: usize,
        place: usize,
        why: Refusal,
    },
    /// Of attributes alone: the entry ends behind one, and so many of those that the count announces are owed.
    Owed {
        announced: usize,
        owed: usize,
    },
}

/// Why the four sections of a symbol are as they are.
#[derive(Clone, Copy, Debug, PartialEq, Eq)]
pub struct Reasons {
    /// Of the GUID of its type.
    pub guid: Reason,
    /// Of its attributes.
    pub attributes: Reason,
    /// Of its extended flags.
    pub extended_flags: Reason,
    /// Of its former names.
    pub refactor_infos: Reason,
}

// Of a section of one size.
fn fixed_reason(there: bool, flagged: bool, place: usize, left: usize) -> Reason
    ensures { result ≡ fixed_reason there flagged place left }
{
    if there {
        return Reason::Whole { place, count: 1 };
    }
    if flagged {
        return Reason::NoRoom { place, left };
    }
    Reason::NotFlagged
}

// Of the attributes, whose count stands at a place if it is there.
fn attributes_reason(own: &[u8], symbol: &AdsSymbolInfo<'_>, place: usize) -> Reason
    ensures { result ≡ attributes_reason own.entry symbol.now place }
{
    let whole = own.len();
    let left = whole.saturating_sub(place);
    if !symbol.flags.has_attributes() {
        return Reason::NotFlagged;
    }
    if left < 2 {
        return Reason::NoRoom { place, left };
    }
    let announced = le::u16_at(own, place) as usize;
    let found = attribute::list(symbol.attributes.bytes, announced);
    let shown = found.attributes.count;
    if let Some(why) = found.stopped {
        return Reason::Refused {
            record: shown,
            place: whole.saturating_sub(found.rest.len()),
            why,
        };
    }
    if shown < announced {
        return Reason::Owed {
            announced,
            owed: announced - shown,
        };
    }
    Reason::Whole {
        place,
        count: announced,
    }
}

// Of a chain that is flagged and has a byte, in an entry of so many: the record without a follower, or the one that is refused, ends it.
#[tactic(auto, using(crate::proofs::Turn::goes_on, crate::proofs::Turn::is_last, crate::proofs::Turn::is_refused, refactor::proofs::Turn::room))]
fn met_chain_reason(whole: usize, chain: &[u8]) -> Reason
    ensures { result ≡ met_chain_reason whole chain.entry }
{
    let place = whole.saturating_sub(chain.len());
    let mut rest = RefactorInfos {
        bytes: chain,
        count: 0,
    };
    loop {
        match refactor::first(rest.bytes) {
            Err(why) => {
                return Reason::Refused {
                    record: rest.count,
                    place: whole.saturating_sub(rest.bytes.len()),
                    why,
                }
            }
            Ok((info, next)) => {
                rest.bytes = next;
                rest.count += 1;
                if !info.next_refactor_info {
                    return Reason::Whole {
                        place,
                        count: rest.count,
                    };
                }
            }
        }
    }
}

fn chain_reason(own: &[u8], symbol: &AdsSymbolInfo<'_>) -> Reason
    ensures { result ≡ chain_reason own.entry symbol.now }
{
    let Some(extended) = symbol.extended_flags else {
        return Reason::NoExtendedFlags
    };
    if !extended.has_refactor_info() {
        return Reason::NotFlagged;
    }
    let chain = symbol.refactor_infos.bytes;
    if chain.is_empty() {
        return Reason::NoRoom {
            place: own.len(),
            left: 0,
        };
    }
    met_chain_reason(own.len(), chain)
}

// The reasons of a symbol that was read from an entry's own bytes.
fn reasons_of(own: &[u8], symbol: &AdsSymbolInfo<'_>) -> Reasons
    requires { IsWithin own symbol.now }
    ensures { result ≡ reasons_of own.entry symbol.now }
{
    let whole = own.len();
    let guid_at = 33 + symbol.name.len() + symbol.type_name.len() + symbol.comment.len();
    let attributes_at = guid_at + if symbol.guid.is_some() { 16 } else { 0 };
    let extended_there = symbol.extended_flags.is_some();
    let extended_at = whole
        .saturating_sub(symbol.refactor_infos.bytes.len())
        .saturating_sub(if extended_there { 4 } else { 0 });
    Reasons {
        guid: fixed_reason(
            symbol.guid.is_some(),
            symbol.flags.has_type_guid(),
            guid_at,
            whole - guid_at,
        ),
        attributes: attributes_reason(own, symbol, attributes_at),
        extended_flags: fixed_reason(
            extended_there,
            symbol.flags.has_extended_flags(),
            extended_at,
            whole.saturating_sub(extended_at),
        ),
        refactor_infos: chain_reason(own, symbol),
    }
}

/// Explains the symbol at the start of some bytes, read in the present mode: why each of its four sections is there or not, and why a list shows no more.
///
/// # Errors
///
/// Those of reading, and no others.
#[tactic(auto, using(crate::proofs::Within::within), unfolding(entry::specs::Entry::claim_of))]
pub fn explain(bytes: &[u8]) -> Result<Reasons, Refusal>
    ensures { result ≡ explained bytes.entry }
{
    let size = entry::claim(bytes, AdsSymbolInfo::header())?;
    let own = &bytes[..size];
    let symbol = AdsSymbolInfo::read(own, Mode::Present)?;
    Ok(reasons_of(own, &symbol))
}
