// What a row comes to over all fillings of the conditions. No filling is tried: two readings of the row reach all that fillings
// can make of it.
ghost use Rattle.std.specs.Prelude.{◌≡◌, ℕ, unwrap_or};
ghost use Rattle.guide.specs.meaning.Guide.{guide_of};
ghost use Rattle.rules.specs.meaning.Rows.{is_broken, conditions_of};
ghost use Rattle.guide.specs.method.Spoken.{SpeaksMode};
ghost use Rattle.guide.specs.meaning.View.{row_numbered};
ghost use Rattle.rules.specs.method.Scanning.{read_row, breach_of, first_unknown};

use crate::conditions;
use guide::layout;
use guide::words::{Joint, Mode, NEGATED, NoWord};

// In which fillings a row is broken; where in some only, with the lowest unknown condition of the row.
#[derive(Clone, Copy, PartialEq, Eq)]
pub enum Breach {
    Never,
    Always,
    Sometimes(u32),
}

// How many conditions a row has room for; 0 stands behind the last of fewer.
const ROOM: u32 = 3;

// The row's expression, where each literal of an unknown condition is taken to be `guess`.
#[tactic(auto, using(crate::proofs::Reading::reads))]
fn read_row(book: &[u8], row: u32, conditions: &[u8], guess: bool) -> bool
    ensures { result ≡ read_row conditions.now guess (row_numbered (guide_of book.now) row) }
{
    let any = Joint::try_from(layout::joint(book, row)) == Ok(Joint::Any);
    for next in 0..ROOM {
        let literal = layout::condition(book, row, next);
        if literal == 0 {
            return !any;
        }
        // One literal alone decides: a true one where any will do, a false one where all must hold.
        if conditions::read_literal(conditions, literal, guess) == any {
            return any;
        }
    }
    !any
}

// The lowest condition of the row that is unknown.
#[tactic(auto, using(crate::proofs::Reading::lowest))]
fn lowest_unknown(book: &[u8], row: u32, conditions: &[u8]) -> Option<u32>
    ensures { unwrap_or result 0 ≡ first_unknown conditions.now (conditions_of (row_numbered (guide_of book.now) row)) }
{
    for next in 0..ROOM {
        let literal = layout::condition(book, row, next);
        if literal == 0 {
            return None;
        }
        let condition = literal % NEGATED;
        if conditions::known(conditions, condition).is_none() {
            return Some(condition);
        }
    }
    None
}

// 01: 0 never, 1 must, 2 may, 3 must if the expression holds and otherwise never, 4 may if it holds and otherwise never.
fn is_broken(mode: Result<Mode, NoWord>, present: bool, value: bool) -> bool
    ensures { (number : ℕ) → SpeaksMode number mode → result ≡ is_broken number present value }
{
    match mode {
        Ok(Mode::Never) => present,
        Ok(Mode::Must) => !present,
        Ok(Mode::MustIf) => present != value,
        Ok(Mode::MayIf) => present && !value,
        Ok(Mode::May) | Err(NoWord) => false,
    }
}

// What the row comes to where its line is present, or where it is not: some filling breaks it exactly if one of the two readings
// does, and every filling exactly if both do.
pub fn weigh_row(book: &[u8], row: u32, conditions: &[u8], present: bool) -> Breach
    ensures { result ≡ breach_of conditions.now (row_numbered (guide_of book.now) row) present }
{
    let mode = Mode::try_from(layout::mode(book, row));
    let low = is_broken(mode, present, read_row(book, row, conditions, false));
    let high = is_broken(mode, present, read_row(book, row, conditions, true));
    match (low, high) {
        (true, true) => Breach::Always,
        (false, false) => Breach::Never,
        // The readings differ by an unknown condition, so there is one.
        _ => Breach::Sometimes(lowest_unknown(book, row, conditions).unwrap_or(0)),
    }
}
