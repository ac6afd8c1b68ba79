// Why a message is refused: numbers 3 to 9 of 01's table, each with what its answer names besides.
use crate::verdict::Verdict;

#[derive(Clone, Copy, PartialEq, Eq, Debug)]
pub enum Refusal {
    // Empty, or over the limit.
    Size,
    // The offset of the first bad byte, which is the message's end if it is cut short.
    BadByte(u32),
    TooManySegments,
    // The segment count, for which a lent table has too few entries.
    NoRoom(u32),
    // The first segment that is a UNH or a UNT and should not be, or the other way round.
    Misplaced(u32),
    // The segment count, which UNT does not tell.
    WrongCount(u32),
    // The segment count, where UNT does not tell UNH's reference.
    WrongReference(u32),
}

// 01's numbers.
impl From<Refusal> for Verdict {
    ghost use Rattle.std.specs.Prelude.{◌≡◌};
    ghost use Rattle.framing.specs.method.Refusals.{verdict_of};

    ghost from_gives = { λ refusal verdict. verdict ≡ verdict_of refusal };

    fn from(refusal: Refusal) -> Verdict {
        match refusal {
            Refusal::Size => Verdict::answer(3, 0),
            Refusal::BadByte(place) => Verdict::answer(4, place),
            Refusal::TooManySegments => Verdict::answer(5, 0),
            Refusal::NoRoom(segments) => Verdict::answer(6, segments),
            Refusal::Misplaced(place) => Verdict::answer(7, place),
            Refusal::WrongCount(segments) => Verdict::answer(8, segments),
            Refusal::WrongReference(segments) => Verdict::answer(9, segments),
        }
    }
}

// And number 0 with the segment count of a message that is not refused.
impl From<Result<u32, Refusal>> for Verdict {
    ghost use Rattle.std.specs.Prelude.{◌≡◌};
    ghost use Rattle.framing.specs.method.Refusals.{told};

    ghost from_gives = { λ answer verdict. verdict ≡ told answer };

    fn from(answer: Result<u32, Refusal>) -> Verdict {
        match answer {
            Ok(segments) => Verdict::answer(0, segments),
            Err(refusal) => refusal.into(),
        }
    }
}
