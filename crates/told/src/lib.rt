//! Answers told in numbers: a status, two figures, and slots that the caller lends. What crosses to C is made here.
#![tactic(auto)]

pub mod fields;
pub mod reasons;
pub mod records;
pub mod symbols;
pub mod theorems;
pub mod types;

ghost use Rattle.std.specs.Prelude.{◌≡◌};
ghost use Rattle.refusal.specs.Refusal.{numbered, figures_of};
ghost use Rattle.told.specs.Told.{Tells, mode_of, number_told, numbers_told, record_told, salvaged_told, end_told};
ghost use Rattle.told.specs.Slots.{slots_after, attribute_slots, refactor_slots};

use entry::{WalkEnd, Walked};
use places::{AttributePlaces, RefactorPlaces};
use refusal::{Mode, Refusal};
use salvage::Salvaged;

/// The call did what it is for. A refusal's status is its number.
pub const DONE: u32 = 0;

/// A walk is at the end.
pub const FINISHED: u32 = 100;

/// A bounded walk has used its steps and is not at the end.
const OUT_OF_STEPS: u32 = 101;

/// The mode that a call is given.
pub fn mode(checked: bool) -> Mode
    ensures { result ≡ mode_of checked }
{
    if checked {
        Mode::Checked
    } else {
        Mode::Present
    }
}

/// A status, and the answer's two numbers.
#[inline(always)]
pub fn tell(status: u32, first: usize, second: usize, answer: &mut [u64; 2]) -> u32
    ensures { Tells (numbered status first second) result answer.new }
{
    *answer = [first as u64, second as u64];
    status
}

/// A refusal: its number and its figures.
pub fn refused(why: Refusal, answer: &mut [u64; 2]) -> u32
    ensures { Tells (figures_of why) result answer.new }
{
    let figures = why.figures();
    tell(figures.number, figures.expected, figures.got, answer)
}

/// A number that was found.
pub fn number(found: Result<usize, Refusal>, answer: &mut [u64; 2]) -> u32
    ensures { Tells (number_told found) result answer.new }
{
    match found {
        Ok(n) => tell(DONE, n, 0, answer),
        Err(why) => refused(why, answer),
    }
}

/// Two numbers that were found.
pub fn numbers(found: Result<(usize, usize), Refusal>, answer: &mut [u64; 2]) -> u32
    ensures { Tells (numbers_told found) result answer.new }
{
    match found {
        Ok((first, second)) => tell(DONE, first, second, answer),
        Err(why) => refused(why, answer),
    }
}

/// How many bytes and how many slots a salvage wrote.
pub fn salvaged(found: Result<Salvaged, Refusal>, answer: &mut [u64; 2]) -> u32
    ensures { Tells (salvaged_told found) result answer.new }
{
    match found {
        Ok(wrote) => tell(DONE, wrote.bytes, wrote.slots, answer),
        Err(why) => refused(why, answer),
    }
}

/// Where an attribute stands.
pub fn attribute(
    found: Result<AttributePlaces, Refusal>,
    slots: &mut [u64; 5],
    answer: &mut [u64; 2],
) -> u32
    ensures tells { Tells (record_told found) result answer.new }
    ensures slots_after { slots.new ≡ slots_after attribute_slots found slots.old }
{
    match found {
        Ok(places) => {
            *slots = [
                places.name as u64,
                places.name_len as u64,
                places.value as u64,
                places.value_len as u64,
                places.next as u64,
            ];
            tell(DONE, 0, 0, answer)
        }
        Err(why) => refused(why, answer),
    }
}

/// What a refactor record says, and where it stands.
pub fn refactor(
    found: Result<RefactorPlaces, Refusal>,
    slots: &mut [u64; 5],
    answer: &mut [u64; 2],
) -> u32
    ensures tells { Tells (record_told found) result answer.new }
    ensures slots_after { slots.new ≡ slots_after refactor_slots found slots.old }
{
    match found {
        Ok(places) => {
            *slots = [
                places.count as u64,
                places.followed as u64,
                places.name as u64,
                places.name_len as u64,
                places.next as u64,
            ];
            tell(DONE, 0, 0, answer)
        }
        Err(why) => refused(why, answer),
    }
}

/// A bounded walk: how it ended, the cursor after it and the steps that it made.
pub fn walked(walked: Walked, cursor: &mut usize, steps: &mut usize, answer: &mut [u64; 2]) -> u32
    ensures tells { Tells (end_told walked.end) result answer.new }
    ensures cursor_after { cursor.new ≡ walked.cursor }
    ensures steps_after { steps.new ≡ walked.steps }
{
    *cursor = walked.cursor;
    *steps = walked.steps;
    match walked.end {
        Ok(WalkEnd::Finished) => tell(FINISHED, 0, 0, answer),
        Ok(WalkEnd::OutOfSteps) => tell(OUT_OF_STEPS, 0, 0, answer),
        Err(why) => refused(why, answer),
    }
}
