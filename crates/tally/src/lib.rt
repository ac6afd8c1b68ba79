// A daily count for each verdict number, in lent bytes that the caller keeps: 02, T-06.
#![tactic(auto)]

mod counts;
mod refusal;

ghost use Rattle.std.specs.Prelude.{◌≡◌};
ghost use Rattle.tally.specs.meaning.Tally.{answer_to_add, tally_after_add, answer_to_clear, tally_after_clear};
ghost use Rattle.tally.specs.method.Refusal.{answer_of};

pub use refusal::{Refusal, answer_of};

// How many counts there are: one for each number of a verdict.
const COUNTS: u32 = 16;

const TALLY_LENGTH: usize = counts::COUNT_BYTES * COUNTS as usize;

// Adds one to the count of a verdict's number.
#[tactic(auto, unfolding(crate::specs::meaning::Tally::answer_to_add, crate::specs::meaning::Tally::tally_after_add))]
pub fn add(tally: &mut [u8], number: u32) -> Result<(), Refusal>
    ensures answer { answer_of result ≡ answer_to_add tally.old number }
    ensures left { tally.new ≡ tally_after_add tally.old number }
{
    if tally.len() != TALLY_LENGTH {
        return Err(Refusal::WrongLength);
    }
    if number >= COUNTS {
        return Err(Refusal::NoSuchCount);
    }
    let count = counts::count_of(tally, number);
    if count == u32::MAX {
        return Err(Refusal::CountIsFull);
    }
    counts::put_count(tally, number, count + 1);
    Ok(())
}

// Begins a new day: every count is 0.
#[tactic(auto, unfolding(crate::specs::meaning::Tally::answer_to_clear, crate::specs::meaning::Tally::tally_after_clear))]
pub fn clear(tally: &mut [u8]) -> Result<(), Refusal>
    ensures answer { answer_of result ≡ answer_to_clear tally.old }
    ensures left { tally.new ≡ tally_after_clear tally.old }
{
    if tally.len() != TALLY_LENGTH {
        return Err(Refusal::WrongLength);
    }
    tally.fill(0);
    Ok(())
}
