// One more piece. Its segments are found whole, by the search that reads whole messages; where a piece begins or ends within one, the machine
// goes from byte to byte.
ghost use Rattle.std.specs.Prelude.{◌≡◌, ◌+◌, ◌≤◌, length, drop};
ghost use Rattle.framing.specs.meaning.Limits.{most_bytes};
ghost use Rattle.pieces.specs.method.Progress.{held, held_after};
ghost use Rattle.pieces.specs.method.Stops.{stops, pass_on, is_held, after_text, PassesData};

use crate::progress::Progress;
use framing::limits::LIMIT_BYTES;
use reading::machine::State;
use reading::service::Service;
use reading::{bytes, machine, segment};

// Where the machine stops, and in which state: at the byte that ends a segment, at the first bad byte, or at the piece's end.
#[derive(Clone, Copy, PartialEq, Eq, Debug)]
pub struct Stop {
    pub state: State,
    pub at: usize,
}

fn is_stop(state: State) -> bool
    ensures { result ≡ stops state }
{
    matches!(state, State::Start | State::Dead)
}

// May text follow? It may right behind a mark, and behind data.
fn is_held(state: State) -> bool
    ensures { result ≡ is_held state }
{
    matches!(state, State::Opened | State::Parted | State::Inside)
}

// Behind text, of which this is the last byte.
fn after_text(service: Service, byte: u8) -> State
    ensures { result ≡ after_text service byte }
{
    if byte == service.component {
        State::Parted
    } else {
        State::Inside
    }
}

// Where text may follow, past all of it and past what is released, as far as the piece goes. Of a segment that is longer than a piece,
// this is where the bytes are read one by one.
fn pass_data(service: Service, piece: &[u8], from: usize, state: State) -> Stop
    ensures { PassesData service piece.now state from result }
{
    if !is_held(state) {
        return Stop { state, at: from };
    }
    let mut held = state;
    let mut at = from;
    // Stays: a byte that is released is passed with its release, two at a time.
    while at < piece.len() {
        let byte = piece[at];
        if bytes::is_text(service, byte) {
            held = after_text(service, byte);
            at += 1;
        } else if byte == service.release && segment::is_released(service, piece, at + 1) {
            held = State::Inside;
            at += 2;
        } else {
            return Stop { state: held, at };
        }
    }
    Stop { state: held, at }
}

// To the next stop: the machine takes each byte that is no data, and the data behind it is passed at once.
fn pass_bytes(service: Service, piece: &[u8], from: usize, state: State) -> Stop
    ensures { result ≡ pass_on service state from (drop from piece.now) }
{
    let mut held = state;
    let mut at = from;
    // Stays: it goes from stop to stop, and not from byte to byte.
    while at < piece.len() {
        let next = machine::step(service, held, piece[at]);
        if is_stop(next) {
            return Stop { state: next, at };
        }
        let passed = pass_data(service, piece, at + 1, next);
        held = passed.state;
        at = passed.at;
    }
    Stop { state: held, at }
}

// Most segments lie within a piece.
#[tactic(auto, using(crate::proofs::Passing::stopping_found))]
fn next_stop(service: Service, piece: &[u8], from: usize, state: State) -> Stop
    ensures { result ≡ pass_on service state from (drop from piece.now) }
{
    if machine::is_start(state)
        && let Some(end) = segment::find_end(service, piece, from)
    {
        return Stop {
            state: State::Start,
            at: end,
        };
    }
    pass_bytes(service, piece, from, state)
}

// A piece, or the part of it, that lies within the bytes that are judged.
fn read_within(service: Service, progress: Progress, piece: &[u8], starts: &mut [u32]) -> Progress
    requires { progress.bytes + length piece.now ≤ most_bytes }
    ensures progress { result ≡ (held_after service (held progress starts.old) piece.now).progress }
    ensures starts_left { starts.new ≡ (held_after service (held progress starts.old) piece.now).starts }
{
    let before = progress.bytes;
    let mut come = progress;
    let mut at = 0;
    // Stays: it goes from segment to segment, and not from byte to byte.
    while at < piece.len() {
        let stop = next_stop(service, piece, at, come.state);
        if piece.len() <= stop.at {
            return come.go_on(stop.state, before + piece.len());
        }
        if machine::is_dead(stop.state) {
            return come.fail_at(before + stop.at, before + piece.len());
        }
        come.put_start(starts);
        come = come.end_segment(starts.len(), before + stop.at + 1);
        at = stop.at + 1;
    }
    come
}

// One more piece: the bytes behind the most are not looked at.
pub fn read_on(service: Service, progress: Progress, piece: &[u8], starts: &mut [u32]) -> Progress
    ensures progress { result ≡ (held_after service (held progress starts.old) piece.now).progress }
    ensures starts_left { starts.new ≡ (held_after service (held progress starts.old) piece.now).starts }
{
    if LIMIT_BYTES < progress.bytes {
        return progress;
    }
    let left = LIMIT_BYTES - progress.bytes;
    if piece.len() <= left {
        return read_within(service, progress, piece, starts);
    }
    let within = read_within(service, progress, &piece[..left], starts);
    within.go_on(within.state, LIMIT_BYTES + 1)
}
