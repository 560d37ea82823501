//! Where an entry of an upload begins and ends: its first four bytes claim its length.
#![tactic(auto, unfolding(crate::specs::Entry::claim_at, crate::specs::Entry::claim_of))]

ghost use Rattle.std.specs.Prelude.{◌≡◌};
ghost use Rattle.entry.specs.Entry.{claim_at, claim_of};
ghost use Rattle.entry.specs.Claims.{StepClaims};
ghost use Rattle.entry.specs.DirectClaims.{DirectClaims};
ghost use Rattle.entry.specs.Bounded.{bounded_walk};
ghost use Rattle.entry.specs.BoundedMeant.{BoundedMeant};
ghost use Rattle.entry.specs.Theorems.{AllSteps, StepsEnough, ZeroClaims};
ghost use Rattle.entry.specs.Alike.{WalkedAlike};

use refusal::{LIMIT, Refusal};

/// What a walk meets at a place, and where it goes from there.
#[derive(Clone, Copy, Debug)]
pub struct Claimed {
    /// The length that an entry claims, or why there is none; nothing at the end.
    pub size: Option<Result<usize, Refusal>>,
    /// The place where the next step begins.
    pub next: usize,
}

/// What is claimed at a place of an upload.
pub fn claim_at(bytes: &[u8], at: usize) -> Claimed
    ensures { result ≡ claim_at bytes.now at }
{
    let length = bytes.len();
    if length <= at {
        return Claimed {
            size: None,
            next: at,
        };
    }
    let refused = |why| Claimed {
        size: Some(Err(why)),
        next: length,
    };
    if length > LIMIT {
        return refused(Refusal::TooLarge { length });
    }
    let available = length - at;
    if available < 4 {
        return refused(Refusal::TooShort {
            needed: at + 4,
            present: length,
        });
    }
    let needed = le::u32_at(bytes, at) as usize;
    if available < needed {
        return refused(Refusal::EntryLengthMismatch { needed, available });
    }
    Claimed {
        size: Some(Ok(needed)),
        next: at + needed,
    }
}

/// How many bytes the first four claim for an entry, whose header is so long.
pub fn claim(bytes: &[u8], header: usize) -> Result<usize, Refusal>
    ensures { result ≡ claim_of header bytes.now }
{
    let length = bytes.len();
    if length > LIMIT {
        return Err(Refusal::TooLarge { length });
    }
    if length < header {
        return Err(Refusal::TooShort {
            needed: header,
            present: length,
        });
    }
    let claim = le::first_u32(bytes) as usize;
    if length < claim {
        return Err(Refusal::EntryLengthMismatch {
            needed: claim,
            available: length,
        });
    }
    if claim < header {
        return Err(Refusal::ClaimBelowHeader { header, claim });
    }
    Ok(claim)
}

/// How a walk ended that nothing refused.
#[derive(Clone, Copy, Debug, PartialEq, Eq)]
pub enum WalkEnd {
    Finished,
    OutOfSteps,
}

/// What a walk did that may make so many steps.
#[derive(Clone, Copy, Debug)]
pub struct Walked {
    /// The steps made. Finding the end is none; a zero claim's is one.
    pub steps: usize,
    /// The place where the next step would begin.
    pub cursor: usize,
    /// A zero claim, which a step would stay at for ever, is refused with 10.
    pub end: Result<WalkEnd, Refusal>,
}

/// Walks from a place on, in at most so many steps (docs/FORMAT.md, "Walking"). It looks at the claims alone.
#[tactic(auto, using(crate::proofs::Bounded::bounded_end, crate::proofs::Bounded::bounded_out, crate::proofs::Bounded::bounded_zero, crate::proofs::Bounded::bounded_turn, crate::proofs::Bounded::bounded_whole))]
pub fn bounded_walk(bytes: &[u8], from: usize, allowed: usize) -> Walked
    ensures { result ≡ bounded_walk bytes.now from allowed }
{
    let mut cursor = from;
    for steps in 0..allowed {
        if bytes.len() <= cursor {
            return Walked {
                steps,
                cursor,
                end: Ok(WalkEnd::Finished),
            };
        }
        let next = claim_at(bytes, cursor).next;
        if next == cursor {
            return Walked {
                steps: steps + 1,
                cursor,
                end: Err(Refusal::ZeroEntryLength),
            };
        }
        cursor = next;
    }
    let end = if bytes.len() <= cursor {
        WalkEnd::Finished
    } else {
        WalkEnd::OutOfSteps
    };
    Walked {
        steps: allowed,
        cursor,
        end: Ok(end),
    }
}

// The theorems. Each is the contract of a function that does nothing, so that none goes unnoticed if its proof does.

/// A step meets the end, 5, 2, 3 or a claim, each where the bytes say so, and goes where docs/FORMAT.md, "Walking", says.
pub fn step_claims()
    ensures { StepClaims }
{}

/// A direct parse meets 5, 2, 3, 4 or a whole entry, each where the bytes say so.
pub fn direct_claims()
    ensures { DirectClaims }
{}

/// The bounded walk goes from claim to claim: it is finished at the end, stopped with 10 at a claim of 0, that step counted, and else out of steps where it made all that were allowed.
pub fn bounded_meant()
    ensures { BoundedMeant }
{}

/// The bounded walk leaves out no step: it is out of steps only where it made all that were allowed, and the whole walk never is.
pub fn all_steps()
    ensures { AllSteps }
{}

/// A walk that may make more steps than there are bytes is the whole walk.
pub fn steps_enough()
    ensures { StepsEnough }
{}

/// Where a step would stay, before the end, an entry claims no bytes.
pub fn zero_claims()
    ensures { ZeroClaims }
{}

/// Two uploads of one length that differ only inside some whole entries, behind their first four bytes, are walked alike: the same places, the same claims, and all other entries' bytes the same.
pub fn walked_alike()
    ensures { WalkedAlike }
{}
