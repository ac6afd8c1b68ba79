// For the tests alone: what the C door that is shipped, crate tracksaddle, does not show, as functions on numbers and slices, so that
// Rust can call them over any bytes: the message's stage, the cursor, and the two passes of placing.
#![tactic(auto)]

ghost use Rattle.std.specs.Prelude.{◌≡◌, ◌+◌, ◌*◌, ◌^◌};
ghost use Rattle.probe.specs.Probe.{packed, ample, next_of};
ghost use Rattle.reading.specs.method.Machine.{next_segment};
ghost use Rattle.reading.specs.meaning.Service.{standard};
ghost use Rattle.framing.specs.method.Stages.{message_stage};
ghost use Rattle.guide.specs.meaning.Plan.{plan_in};
ghost use Rattle.judging.specs.method.Answers.{placing_verdict};
ghost use Rattle.reading.specs.method.Starts.{starts_table};
ghost use Rattle.placing.specs.method.Passes.{homes_from, tested, homes_table, parents_table};

use framing::{Room, Verdict};
use placing::Unplaced;
use reading::cursor::Cursor;
use reading::service::Service;

// More entries than any message that passes number 5 has segments.
const AMPLE: usize = 1_000_000;

// The table's number in the upper half, the place in the lower.
fn pack(number: u32, place: u32) -> u64
    ensures { result ≡ number * 2 ^ 32 + place }
{
    number as u64 * 0x1_0000_0000 + place as u64
}

// 01's numbers 3 to 9 and the place, or 0 and the segment count.
#[unsafe(no_mangle)]
pub extern "C" fn probe_message(message: &[u8]) -> u64
    ensures { result ≡ packed (message_stage standard message.now ample) }
{
    let room = Room {
        starts: AMPLE,
        homes: AMPLE,
        parents: AMPLE,
    };
    let verdict = Verdict::from(framing::message_stage(Service::standard(), message, room));
    pack(verdict.number, verdict.place.at)
}

// The offset behind the segment that starts at an offset; 0 where none does.
#[unsafe(no_mangle)]
pub extern "C" fn probe_next(message: &[u8], at: usize) -> usize
    ensures { result ≡ next_of (next_segment standard message.now at) }
{
    let cursor = Cursor { at };
    match cursor.next_segment(Service::standard(), message) {
        Some((_, next)) => next.at,
        None => 0,
    }
}

// Number 10 or 11 and its place, or 0 and the segment count, for the message's first so many segments.
#[unsafe(no_mangle)]
pub extern "C" fn probe_place(message: &[u8], segments: u32, book: &[u8]) -> u64
    ensures { result ≡ packed (placing_verdict segments (tested (plan_in book.now) (homes_from standard message.now book.now segments 0))) }
{
    match placing::test_placing(Service::standard(), message, segments, book) {
        Ok(()) => pack(0, segments),
        Err(Unplaced::NoHome(place)) => pack(10, place),
        Err(Unplaced::Stops(place)) => pack(11, place),
    }
}

// The tables for the message's first so many segments, as many entries as there are and as fit into each.
#[unsafe(no_mangle)]
pub extern "C" fn probe_write_tree(
    message: &[u8],
    segments: u32,
    book: &[u8],
    starts: &mut [u32],
    homes: &mut [u32],
    parents: &mut [u32],
)
    ensures { (starts.new ≡ starts_table standard message.now segments starts.old)
        × (homes.new ≡ homes_table standard message.now book.now segments homes.old)
        × (parents.new ≡ parents_table standard message.now book.now segments parents.old) }
{
    placing::write_tree(
        Service::standard(),
        message,
        segments,
        book,
        starts,
        homes,
        parents,
    );
}
