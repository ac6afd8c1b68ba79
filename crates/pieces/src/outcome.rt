// What a call answers, and the number that C has for it.
ghost use Rattle.std.specs.Prelude.{◌≡◌};
ghost use Rattle.pieces.specs.meaning.Calls.{piece_number, end_number};

use framing::Verdict;

// These are not eight numbers, and nothing has changed.
#[derive(Clone, Copy, PartialEq, Eq, Debug)]
pub struct NoState;

// For C, where no verdict is: there is more to come, or these are not eight numbers.
const GOES_ON: u32 = 0xffff_ffff;

const NO_STATE: u32 = 0xffff_fffe;

pub fn piece_number(outcome: Result<Option<Verdict>, NoState>) -> u32
    ensures { result ≡ piece_number outcome }
{
    match outcome {
        Ok(Some(verdict)) => verdict.number,
        Ok(None) => GOES_ON,
        Err(NoState) => NO_STATE,
    }
}

pub fn end_number(outcome: Result<Verdict, NoState>) -> u32
    ensures { result ≡ end_number outcome }
{
    match outcome {
        Ok(verdict) => verdict.number,
        Err(NoState) => NO_STATE,
    }
}
