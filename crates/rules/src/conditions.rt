// What the caller says of the conditions.
ghost use Rattle.std.specs.Prelude.{◌≡◌};
ghost use Rattle.rules.specs.meaning.Conditions.{said};
ghost use Rattle.rules.specs.method.Conditions.{are_truth_values, known};
ghost use Rattle.rules.specs.method.Scanning.{guessed};

use guide::words::NEGATED;

// The bytes of a condition; 0 is false.
const TRUE: u32 = 1;

const UNKNOWN: u32 = 2;

// Is each byte 0, 1 or 2: false, true or unknown?
pub fn are_truth_values(conditions: &[u8]) -> bool
    ensures { result ≡ are_truth_values conditions.now }
{
    conditions.iter().all(|&said| said <= 2)
}

// 0 false, 1 true, 2 unknown; a condition that the caller does not name is 0.
pub fn said_of(conditions: &[u8], condition: u32) -> u32
    ensures { result ≡ said conditions.now condition }
{
    if condition == 0 {
        return 0;
    }
    slices::byte_at(conditions, condition as usize - 1)
}

// Whether a condition is true, where that is known.
pub fn known(conditions: &[u8], condition: u32) -> Option<bool>
    ensures { result ≡ known conditions.now condition }
{
    match said_of(conditions, condition) {
        UNKNOWN => None,
        said => Some(said == TRUE),
    }
}

// A literal as a row holds it, where one of an unknown condition is taken to be `guess`.
#[tactic(auto, unfolding(crate::specs::meaning::Rows::literal))]
pub fn read_literal(conditions: &[u8], literal: u32, guess: bool) -> bool
    ensures { result ≡ guessed conditions.now guess literal }
{
    match known(conditions, literal % NEGATED) {
        Some(value) => value != (literal >= NEGATED),
        None => guess,
    }
}
