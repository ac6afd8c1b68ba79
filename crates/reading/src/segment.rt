// Where a segment ends. The machine says what is right. What it keeps in its state, the code here knows by where it stands: a message's
// bytes are read several times over, and nothing else is done so often.
ghost use Rattle.std.specs.Prelude.{◌≡◌, ◌&&◌, ltb, length, drop, get_or};
ghost use Rattle.reading.specs.meaning.Service.{must_release};
ghost use Rattle.reading.specs.declared.machine.State.TheVariants.{Opened};
ghost use Rattle.reading.specs.method.Machine.{end_on, segment_end};
ghost use Rattle.reading.specs.method.Kept.{TagOrNone, Passed, marked_by, or_length};

use crate::bytes;
use crate::bytes::Kind;
use crate::service::Service;

// Behind a release: does a byte stand there that may be released?
pub fn is_released(service: Service, message: &[u8], at: usize) -> bool
    ensures { result ≡ (ltb at (length message.now) && must_release service (get_or message.now at 0)) }
{
    at < message.len() && bytes::must_release(service, message[at])
}

// The first byte from an offset on that is no text; the end if there is none. This is where a message's bytes are read one by one.
// Stays: a number and no Option, and no `for`: with these the loop runs 17 instructions a byte for 13, and misses the bar of speed.
#[tactic(auto, using(crate::proofs::Ending::passed_none))]
fn pass_text(service: Service, message: &[u8], from: usize) -> usize
    ensures { Passed service message.now from result }
{
    let mut at = from;
    while at < message.len() {
        if !bytes::is_text(service, message[at]) {
            return at;
        }
        at += 1;
    }
    at
}

// Does a needless mark stand right before `at`? Where text has been passed from `from` on, it would be a component's; otherwise it is what
// stood before `from`.
fn is_marked(service: Service, message: &[u8], from: usize, at: usize, was: bool) -> bool
    ensures { result ≡ marked_by service message.now from at was }
{
    if from < at {
        slices::byte_at(message, at - 1) == u32::from(service.component)
    } else {
        was
    }
}

// From right behind the mark that opens an element on, text after text. `opened` and `parted` say what stands right before `next`: such a
// mark, or one that parts two components. The message's length is no end.
// Stays: a number and no Option, whose `None` is set for every byte of text.
#[tactic(auto, using(crate::proofs::Ending::ending_steps))]
fn end_inside(service: Service, message: &[u8], from: usize) -> usize
    ensures { result ≡ or_length message.now (end_on service Opened from (drop from message.now)) }
{
    let mut opened = true;
    let mut parted = false;
    let mut next = from;
    // Stays: text is passed as a whole, so `next` jumps, which no `for` says.
    while next < message.len() {
        let at = pass_text(service, message, next);
        if message.len() <= at {
            return message.len();
        }
        match bytes::kind_of(service, message[at]) {
            Kind::Component => {
                opened = false;
                parted = true;
                next = at + 1;
            }
            Kind::Element => {
                if is_marked(service, message, next, at, parted) {
                    return message.len();
                }
                opened = true;
                parted = false;
                next = at + 1;
            }
            Kind::Terminator => {
                if is_marked(service, message, next, at, opened | parted) {
                    return message.len();
                }
                return at;
            }
            Kind::Release => {
                if !is_released(service, message, at + 1) {
                    return message.len();
                }
                opened = false;
                parted = false;
                next = at + 2;
            }
            Kind::Plain => {
                opened = false;
                parted = false;
                next = at + 1;
            }
            Kind::Other => return message.len(),
        }
    }
    message.len()
}

// Does a tag stand at an offset, and a byte behind it?
#[tactic(auto, using(crate::proofs::Ending::tag_steps))]
fn has_tag(message: &[u8], at: usize) -> bool
    ensures { TagOrNone message.now at result }
{
    4 <= message.len()
        && at <= message.len() - 4
        && bytes::is_tag_byte(message[at])
        && bytes::is_tag_byte(message[at + 1])
        && bytes::is_tag_byte(message[at + 2])
}

// Where the terminator stands of the segment that starts at an offset, whatever stands before it and behind it.
#[tactic(auto, using(crate::proofs::Ending::tagged_steps))]
pub fn find_end(service: Service, message: &[u8], at: usize) -> Option<usize>
    ensures { result ≡ segment_end service message.now at }
{
    if !has_tag(message, at) {
        return None;
    }
    match bytes::kind_of(service, message[at + 3]) {
        Kind::Element => {
            let end = end_inside(service, message, at + 4);
            (end < message.len()).then_some(end)
        }
        Kind::Terminator => Some(at + 3),
        Kind::Component | Kind::Release | Kind::Plain | Kind::Other => None,
    }
}
