// One byte more: the state that reading keeps between bytes, and how a byte moves it. Where a message goes wrong is asked byte by byte.
ghost use Rattle.std.specs.Prelude.{◌≡◌};
ghost use Rattle.reading.specs.meaning.Service.{is_tag_byte};
ghost use Rattle.reading.specs.method.Machine.{after_tag, after_tagged, after_opened, after_parted, after_inside, after_released, stepped, is_start, is_dead, bad_from};

use crate::bytes;
use crate::bytes::Kind;
use crate::service::Service;

// Where reading stands: before the tag's first, second and third byte, after the tag, right behind the mark that opens an element,
// right behind one that parts two components, behind data, after a release, or past a fault, from where nothing leads back.
#[derive(Clone, Copy, PartialEq, Eq, Debug)]
pub enum State {
    Start,
    Second,
    Third,
    Tagged,
    Opened,
    Parted,
    Inside,
    Released,
    Dead,
}

fn after_tag(byte: u8, next: State) -> State
    ensures { result ≡ after_tag (is_tag_byte byte) next }
{
    if bytes::is_tag_byte(byte) {
        next
    } else {
        State::Dead
    }
}

fn after_tagged(kind: Kind) -> State
    ensures { result ≡ after_tagged kind }
{
    match kind {
        Kind::Element => State::Opened,
        Kind::Terminator => State::Start,
        Kind::Component | Kind::Release | Kind::Plain | Kind::Other => State::Dead,
    }
}

// No segment ends right behind an element's mark.
fn after_opened(kind: Kind) -> State
    ensures { result ≡ after_opened kind }
{
    match kind {
        Kind::Component => State::Parted,
        Kind::Element => State::Opened,
        Kind::Release => State::Released,
        Kind::Plain => State::Inside,
        Kind::Terminator | Kind::Other => State::Dead,
    }
}

// Nor does an element right behind a component's.
fn after_parted(kind: Kind) -> State
    ensures { result ≡ after_parted kind }
{
    match kind {
        Kind::Component => State::Parted,
        Kind::Release => State::Released,
        Kind::Plain => State::Inside,
        Kind::Element | Kind::Terminator | Kind::Other => State::Dead,
    }
}

fn after_inside(kind: Kind) -> State
    ensures { result ≡ after_inside kind }
{
    match kind {
        Kind::Component => State::Parted,
        Kind::Element => State::Opened,
        Kind::Terminator => State::Start,
        Kind::Release => State::Released,
        Kind::Plain => State::Inside,
        Kind::Other => State::Dead,
    }
}

fn after_released(kind: Kind) -> State
    ensures { result ≡ after_released kind }
{
    match kind {
        Kind::Component | Kind::Element | Kind::Terminator | Kind::Release => State::Inside,
        Kind::Plain | Kind::Other => State::Dead,
    }
}

// The state after one byte more.
pub fn step(service: Service, state: State, byte: u8) -> State
    ensures { result ≡ stepped service state byte }
{
    match state {
        State::Start => after_tag(byte, State::Second),
        State::Second => after_tag(byte, State::Third),
        State::Third => after_tag(byte, State::Tagged),
        State::Tagged => after_tagged(bytes::kind_of(service, byte)),
        State::Opened => after_opened(bytes::kind_of(service, byte)),
        State::Parted => after_parted(bytes::kind_of(service, byte)),
        State::Inside => after_inside(bytes::kind_of(service, byte)),
        State::Released => after_released(bytes::kind_of(service, byte)),
        State::Dead => State::Dead,
    }
}

// Does a segment's first byte come next? A byte that leads there has ended one.
pub fn is_start(state: State) -> bool
    ensures { result ≡ is_start state }
{
    matches!(state, State::Start)
}

// Is reading past a fault?
pub fn is_dead(state: State) -> bool
    ensures { result ≡ is_dead state }
{
    matches!(state, State::Dead)
}

// The first bad byte from an offset on, where a segment's tag is to start; the end if there is none.
// Stays: a place, and no Option: where no byte is bad the message is cut short, and its end is the place of the fault.
#[tactic(auto, using(crate::proofs::Scanning::looking_on, crate::proofs::Scanning::looking_out))]
pub fn find_bad(service: Service, message: &[u8], from: usize) -> usize
    ensures { result ≡ bad_from service message.now from }
{
    let mut state = State::Start;
    for at in from..message.len() {
        state = step(service, state, message[at]);
        if is_dead(state) {
            return at;
        }
    }
    from.max(message.len())
}
