// Why a call of the tally is refused, and nothing changed.
ghost use Rattle.std.specs.Prelude.{◌≡◌};
ghost use Rattle.tally.specs.method.Refusal.{answer_of};

#[derive(Clone, Copy, PartialEq, Eq, Debug)]
pub enum Refusal {
    // the lent bytes are no tally
    WrongLength = 1,
    // a number that no verdict has
    NoSuchCount = 2,
    // a count that takes no more
    CountIsFull = 3,
}

// As C has it: 0, or the refusal's number.
pub fn answer_of(outcome: Result<(), Refusal>) -> u32
    ensures { result ≡ answer_of outcome }
{
    match outcome {
        Ok(()) => 0,
        Err(refusal) => refusal as u32,
    }
}
