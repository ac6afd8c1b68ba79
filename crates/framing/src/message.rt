// The message alone, without a book: numbers 3 to 9, in the order of 01's table. The tests that they ask stand below.
ghost use Rattle.std.specs.Prelude.{◌≡◌};
ghost use Rattle.framing.specs.method.Refusals.{told};
ghost use Rattle.framing.specs.method.Decimal.{is_decimal_from, is_decimal};
ghost use Rattle.framing.specs.method.Stages.{is_sized, has_room, closing_stage, message_stage};

use crate::limits::{LIMIT_BYTES, LIMIT_SEGMENTS};
use crate::refusal::Refusal;
use crate::survey;
use reading::service::Service;
use reading::{bytes, compare, lookup};

// How many entries the three lent tables have.
#[derive(Clone, Copy, PartialEq, Eq, Debug)]
pub struct Room {
    pub starts: usize,
    pub homes: usize,
    pub parents: usize,
}

// Numbers 3 to 9; or the segment count of a message that has none of these faults.
pub fn message_stage(service: Service, message: &[u8], room: Room) -> Result<u32, Refusal>
    ensures { told result ≡ message_stage service message.now room }
{
    if !is_sized(message) {
        return Err(Refusal::Size);
    }
    let survey = survey::make_survey(service, message)?;
    let segments = survey.segments;
    if LIMIT_SEGMENTS < segments as usize {
        return Err(Refusal::TooManySegments);
    }
    if !room.holds(segments as usize) {
        return Err(Refusal::NoRoom(segments));
    }
    let last = survey.frame?;
    closing_stage(service, message, segments, last)
}

// Numbers 8 and 9: the count and the reference in the last segment, which starts at `last`.
fn closing_stage(
    service: Service,
    message: &[u8],
    segments: u32,
    last: usize,
) -> Result<u32, Refusal>
    ensures { told result ≡ closing_stage service message.now segments last }
{
    let count = lookup::find_component(service, message, last, 1, 1);
    if !is_decimal(count, segments) {
        return Err(Refusal::WrongCount(segments));
    }
    let closing = lookup::find_component(service, message, last, 2, 1);
    let opening = lookup::find_component(service, message, 0, 1, 1);
    if !compare::same_component(closing, opening) {
        return Err(Refusal::WrongReference(segments));
    }
    Ok(segments)
}

// ---- number 3

fn is_sized(message: &[u8]) -> bool
    ensures { result ≡ is_sized message.now }
{
    (1..=LIMIT_BYTES).contains(&message.len())
}

// ---- number 6

impl Room {
    fn holds(self, segments: usize) -> bool
        ensures { result ≡ has_room self segments }
    {
        segments <= self.starts && segments <= self.homes && segments <= self.parents
    }
}

// ---- number 8

fn is_decimal(value: &[u8], number: u32) -> bool
    ensures { result ≡ is_decimal number value.now }
{
    match value {
        [] | [b'0', ..] => false,
        digits => makes(digits, number),
    }
}

// Do digits make the number? As soon as they make more, they do not.
fn makes(value: &[u8], number: u32) -> bool
    ensures { result ≡ is_decimal_from number 0 value.now }
{
    let wanted = u64::from(number);
    let mut made: u64 = 0;
    for &byte in value {
        if !bytes::is_digit(byte) {
            return false;
        }
        made = 10 * made + u64::from(byte - b'0');
        if wanted < made {
            return false;
        }
    }
    made == wanted
}
