// A component of the segment that starts at an offset: where it lies, and the part of the message that it is.
ghost use Rattle.std.specs.Prelude.{◌≡◌, ◌&&◌, eqb};
ghost use Rattle.reading.specs.method.Machine.{seek_from, component_span};
ghost use Rattle.reading.specs.method.Part.{IsComponent};

use crate::bytes::Kind;
use crate::service::Service;
use crate::span::Span;
use crate::{bytes, segment};

// Is the component that is being read the one that is sought? So many elements and components have been opened.
fn is_here(elements: usize, components: usize, element: usize, component: usize) -> bool
    ensures { result ≡ (eqb elements element && eqb components component) }
{
    elements == element && components == component
}

// Seeks a component from the byte behind a segment's tag on. An absent one lies at the terminator. How many
// elements and components have been opened, where the component starts, and whether the next byte is released, are locals of
// their own: as one struct they would go through memory at every byte.
#[tactic(auto, using(crate::proofs::Seeking::search_ends))]
pub fn seek_from(
    service: Service,
    message: &[u8],
    from: usize,
    element: usize,
    component: usize,
) -> Span
    ensures { result ≡ seek_from service message.now from element component }
{
    let mut elements: usize = 0;
    let mut components: usize = 0;
    let mut start = from;
    let mut released = false;
    for at in from..message.len() {
        let byte = message[at];
        if released {
            released = false;
        } else if bytes::must_release(service, byte) {
            match bytes::kind_of(service, byte) {
                Kind::Component => {
                    if is_here(elements, components, element, component) {
                        return Span { start, end: at };
                    }
                    components += 1;
                    start = at + 1;
                }
                Kind::Element => {
                    if is_here(elements, components, element, component) {
                        return Span { start, end: at };
                    }
                    elements += 1;
                    components = 1;
                    start = at + 1;
                }
                Kind::Terminator => {
                    if is_here(elements, components, element, component) {
                        return Span { start, end: at };
                    }
                    return Span::empty_at(at);
                }
                Kind::Release => released = true,
                Kind::Plain | Kind::Other => {}
            }
        }
    }
    Span::empty_at(from.max(message.len()))
}

// Where a component lies. Without such a segment, and for a number 0, the empty part at the message's end.
// Stays: a span, and no Option: a call from C is handed the empty part, and where that lies is promised.
#[tactic(auto, using(crate::proofs::Ending::end_within))]
pub fn component_span(
    service: Service,
    message: &[u8],
    at: usize,
    element: usize,
    component: usize,
) -> Span
    ensures { result ≡ component_span service message.now at element component }
{
    let nowhere = Span::empty_at(message.len());
    if element == 0 || component == 0 {
        return nowhere;
    }
    match segment::find_end(service, message, at) {
        Some(_) => seek_from(service, message, at + 3, element, component),
        None => nowhere,
    }
}

// The component as a part of the message itself, release bytes included.
#[tactic(auto, using(crate::proofs::Seeking::span_inside))]
pub fn find_component(
    service: Service,
    message: &[u8],
    at: usize,
    element: usize,
    component: usize,
) -> &[u8]
    ensures { IsComponent service message.entry at element component result }
{
    let span = component_span(service, message, at, element, component);
    &message[span.start..span.end]
}
