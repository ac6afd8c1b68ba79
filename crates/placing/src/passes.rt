// The two passes over a message. What refuses a message touches no table and nothing could be restored, so homes are found in a
// test pass and again in the pass that writes.
ghost use Rattle.std.specs.Prelude.{◌≡◌};
ghost use Rattle.guide.specs.meaning.Plan.{plan_in};
ghost use Rattle.placing.specs.method.Passes.{homes_from, first_stop, outcome_of, tested, homes_table, parents_table};
ghost use Rattle.reading.specs.method.Starts.{starts_table};

use crate::home::Lines;
use crate::segment::Segment;
use crate::tree::Trail;
use crate::walk::Walk;
use reading::cursor::Cursor;
use reading::service::Service;

// Why a message is not placed: 10, the first segment without a home; or 11, the smallest k whose first k homes begin no allowed
// sequence.
#[derive(Clone, Copy, PartialEq, Eq, Debug)]
pub enum Unplaced {
    NoHome(u32),
    Stops(u32),
}

// Where the walk was refused first: it has just come to its k-th home.
fn first_stop(stop: Option<u32>, alive: bool, k: u32) -> Option<u32>
    ensures { result ≡ first_stop stop alive k }
{
    if alive {
        return stop;
    }
    stop.or(Some(k))
}

fn outcome_of(stop: Option<u32>) -> Result<(), Unplaced>
    ensures { result ≡ outcome_of stop }
{
    match stop {
        None => Ok(()),
        Some(place) => Err(Unplaced::Stops(place)),
    }
}

// Can the message's first so many segments be placed: do their homes begin an allowed sequence? A segment without a home is looked
// for to the end before a stop is answered.
pub fn test_placing(
    service: Service,
    message: &[u8],
    segments: u32,
    book: &[u8],
) -> Result<(), Unplaced>
    ensures { result ≡ tested (plan_in book.now) (homes_from service message.now book.now segments 0) }
{
    let lines = Lines::of(book);
    let mut cursor = Cursor::first();
    let mut walk = Walk::begin();
    let mut stop = None;
    for passed in 0..segments {
        let at = cursor.at;
        let place = passed + 1;
        let Some((_, next)) = cursor.next_segment(service, message) else {
            return outcome_of(stop);
        };
        let segment = Segment::at(service, message, at);
        let Some(home) = lines.find_home(&segment) else {
            return Err(Unplaced::NoHome(place));
        };
        walk.advance(book, home);
        stop = first_stop(stop, walk.is_alive(), place);
        cursor = next;
    }
    outcome_of(stop)
}

// Writes the tables for the message's first so many segments, as many as there are and as fit: where each one starts, its home (0 if
// it has none), and the trigger of the instance that holds it. Nothing else there changes.
pub fn write_tree(
    service: Service,
    message: &[u8],
    segments: u32,
    book: &[u8],
    starts: &mut [u32],
    homes: &mut [u32],
    parents: &mut [u32],
)
    ensures starts { starts.new ≡ starts_table service message.now segments starts.old }
    ensures homes { homes.new ≡ homes_table service message.now book.now segments homes.old }
    ensures parents { parents.new ≡ parents_table service message.now book.now segments parents.old }
{
    let lines = Lines::of(book);
    let mut cursor = Cursor::first();
    let mut trail = Trail::begin();
    for entry in 0..segments {
        let at = cursor.at;
        let Some((_, next)) = cursor.next_segment(service, message) else {
            return;
        };
        let segment = Segment::at(service, message, at);
        // Stays: 0 for no home is what the lent table has (C interface).
        let home = lines.find_home(&segment).unwrap_or(0);
        slices::put(starts, entry as usize, slices::entry_of(at));
        slices::put(homes, entry as usize, home);
        slices::put(parents, entry as usize, trail.parent_of(book, home));
        trail.open_instance(book, home, entry + 1);
        cursor = next;
    }
}
