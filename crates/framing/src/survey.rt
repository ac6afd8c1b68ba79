// One pass over a message finds what numbers 4 and 7 ask: how many segments it has, and where UNH and UNT stand. Each of these could
// be found by itself; both at once saves reading all bytes once more.
ghost use Rattle.std.specs.Prelude.{◌≡◌, ◌≤◌, length, Ok};
ghost use Rattle.framing.specs.meaning.Limits.{most_bytes};
ghost use Rattle.framing.specs.method.Stages.{is_misplaced_at};
ghost use Rattle.framing.specs.method.Survey.{unless_misplaced, surveyed};

use crate::refusal::Refusal;
use reading::service::Service;
use reading::tag::{UNH, UNT};
use reading::{machine, segment, tag};

// How many segments a well-formed message has; and where the last one starts, unless number 7 is the answer.
#[derive(Clone, Copy, PartialEq, Eq, Debug)]
pub struct Survey {
    pub segments: u32,
    pub frame: Result<usize, Refusal>,
}

// UNH stands exactly at the first place, and UNT exactly at the last.
fn is_misplaced(is_first: bool, is_last: bool, tag: u32) -> bool
    ensures { result ≡ is_misplaced_at is_first is_last tag }
{
    is_first != (tag == UNH) || is_last != (tag == UNT)
}

// The frame, once the first misplaced segment is known and where the last one starts.
fn frame(misplaced: Option<u32>, last: usize) -> Result<usize, Refusal>
    ensures { result ≡ unless_misplaced misplaced (Ok last) }
{
    match misplaced {
        Some(place) => Err(Refusal::Misplaced(place)),
        None => Ok(last),
    }
}

// The only refusal here is number 4.
pub fn make_survey(service: Service, message: &[u8]) -> Result<Survey, Refusal>
    requires { length message.now ≤ most_bytes }
    ensures { result ≡ surveyed service message.now }
{
    let mut segments = 0;
    let mut misplaced = None;
    let mut last = 0;
    let mut at = 0;
    // Stays: each turn jumps to the next segment, so there is no index to count.
    while at < message.len() {
        let Some(end) = segment::find_end(service, message, at) else {
            return Err(Refusal::BadByte(machine::find_bad(service, message, at) as u32));
        };
        segments += 1;
        last = at;
        at = end + 1;
        let tag = tag::tag_at(message, last);
        let is_here = is_misplaced(segments == 1, at == message.len(), tag);
        misplaced = misplaced.or(is_here.then_some(segments));
    }
    if segments == 0 {
        return Err(Refusal::BadByte(0));
    }
    Ok(Survey {
        segments,
        frame: frame(misplaced, last),
    })
}
