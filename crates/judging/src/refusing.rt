// The refusals, numbers 1 to 11, in the order of 01's table. They touch no table. Numbers 3 to 9 are asked in the crate framing.
ghost use Rattle.std.specs.Prelude.{◌≡◌, ◌&&◌, ◌==◌, length};
ghost use Rattle.guide.specs.meaning.Guide.{guide_of};
ghost use Rattle.rules.specs.method.Conditions.{are_truth_values};
ghost use Rattle.judging.specs.method.Refusals.{told};
ghost use Rattle.judging.specs.method.Table.{refusal};

use book::BadBook;
use framing::{Room, Verdict};
use guide::layout;
use placing::Unplaced;
use reading::service::Service;

#[derive(Clone, Copy, PartialEq, Eq, Debug)]
pub enum Refusal {
    Book,
    Conditions,
    Message(framing::Refusal),
    Placing(Unplaced),
}

impl From<BadBook> for Refusal {
    ghost use Rattle.std.specs.Prelude.{◌≡◌};
    ghost use Rattle.judging.specs.declared.refusing.Refusal.TheVariants.{Book};

    ghost from_gives = { λ _ refusal. refusal ≡ Book };

    fn from(_: BadBook) -> Refusal {
        Refusal::Book
    }
}

impl From<framing::Refusal> for Refusal {
    ghost use Rattle.std.specs.Prelude.{◌≡◌};
    ghost use Rattle.judging.specs.declared.refusing.Refusal.TheVariants.{Message};

    ghost from_gives = { λ of_message refusal. refusal ≡ Message of_message };

    fn from(of_message: framing::Refusal) -> Refusal {
        Refusal::Message(of_message)
    }
}

impl From<Unplaced> for Refusal {
    ghost use Rattle.std.specs.Prelude.{◌≡◌};
    ghost use Rattle.judging.specs.declared.refusing.Refusal.TheVariants.{Placing};

    ghost from_gives = { λ of_placing refusal. refusal ≡ Placing of_placing };

    fn from(of_placing: Unplaced) -> Refusal {
        Refusal::Placing(of_placing)
    }
}

// 01's numbers.
impl From<Refusal> for Verdict {
    ghost use Rattle.std.specs.Prelude.{◌≡◌};
    ghost use Rattle.judging.specs.method.Refusals.{verdict_of};

    ghost from_gives = { λ refusal verdict. verdict ≡ verdict_of refusal };

    fn from(refusal: Refusal) -> Verdict {
        match refusal {
            Refusal::Book => Verdict::answer(1, 0),
            Refusal::Conditions => Verdict::answer(2, 0),
            Refusal::Message(of_message) => of_message.into(),
            Refusal::Placing(Unplaced::NoHome(place)) => Verdict::answer(10, place),
            Refusal::Placing(Unplaced::Stops(place)) => Verdict::answer(11, place),
        }
    }
}

// Numbers 1 to 11; or the segment count where there is none of these.
pub fn refuse(
    service: Service,
    message: &[u8],
    book: &[u8],
    conditions: &[u8],
    room: Room,
) -> Result<u32, Refusal>
    ensures { told result ≡ refusal service message.now book.now conditions.now room }
{
    book::check_book(book)?;
    if !are_conditions(book, conditions) {
        return Err(Refusal::Conditions);
    }
    let segments = framing::message_stage(service, message, room)?;
    placing::test_placing(service, message, segments, book)?;
    Ok(segments)
}

// As many conditions as the book says, and no byte above 2.
fn are_conditions(book: &[u8], conditions: &[u8]) -> bool
    ensures { result ≡ (length conditions.now == (guide_of book.now).conditions && are_truth_values conditions.now) }
{
    conditions.len() == layout::conditions(book) as usize && rules::are_truth_values(conditions)
}
