// The components of a segment as they are written: the only place that reads a segment's bytes one by one.
ghost use Rattle.std.specs.Prelude.{◌≡◌, ◌==◌, true, false, length, drop, position, MatchOption};
ghost use Rattle.fields.specs.method.Parts.{cut, components_in, any_bytes};
ghost use Rattle.reading.specs.meaning.Component.{value_of};
ghost use Rattle.fields.specs.method.Kept.{opens, Reads, Ends};

use reading::bytes;
use reading::bytes::Kind;
use reading::service::Service;

// The component at the front, and what stands behind it, from the mark on that ends it. A byte behind a release is no mark. Most
// bytes are neither, so that is asked first.
#[tactic(auto, using(crate::proofs::Cutting::reading))]
pub fn split_component(service: Service, rest: &[u8]) -> (&[u8], &[u8])
    ensures { Reads service rest.now result.0.now result.1.now }
{
    let mut at = 0;
    // Stays: a byte that is released is passed with its release, two at a time; to carry a flag instead costs every byte.
    while at < rest.len() {
        let byte = rest[at];
        if bytes::must_release(service, byte) {
            match bytes::kind_of(service, byte) {
                Kind::Component | Kind::Element | Kind::Terminator => return rest.split_at(at),
                Kind::Release => at += 1,
                Kind::Plain | Kind::Other => {}
            }
        }
        at += 1;
    }
    (rest, &[])
}

// Where the next byte that releases another stands, if one does.
fn next_release(service: Service, rest: &[u8]) -> Option<usize>
    ensures { result ≡ position (λ byte. byte == service.release) rest.now }
{
    rest.iter().position(|byte| *byte == service.release)
}

// How long a component's value is: a byte that releases the next does not count.
#[tactic(auto, using(crate::proofs::Fitting::measuring))]
pub fn value_length(service: Service, part: &[u8]) -> usize
    ensures { result ≡ length (value_of service part.now) }
{
    let mut releases = 0;
    let mut rest = part;
    // Stays: a byte that is released is passed with its release, if there is one. To carry a flag costs every byte, and an index that
    // goes on by one or by two waits for every byte.
    while let Some(at) = next_release(service, rest) {
        releases += 1;
        rest = match &rest[at..] {
            [_, _, behind @ ..] => behind,
            _ => &[],
        };
    }
    part.len() - releases
}

// What stands behind such a mark, if one is at the front: it opens another component of the element, or another element.
#[tactic(auto, using(crate::proofs::Cutting::opening))]
pub fn opened(service: Service, rest: &[u8], mark: Kind) -> Option<&[u8]>
    ensures { MatchOption result (opens mark service rest.now ≡ false) (λ next. (opens mark service rest.now ≡ true) × (next.now ≡ drop 1 rest.now)) }
{
    match rest {
        [first, next @ ..] if bytes::kind_of(service, *first) == mark => Some(next),
        _ => None,
    }
}

// From behind the segment's tag on: what is left from the mark on that opens its first element, or from where it ends. Where the
// segment is well-formed, that is at once.
#[tactic(auto, using(crate::proofs::Cutting::skipping))]
pub fn skip_to_element(service: Service, rest: &[u8]) -> &[u8]
    ensures { Ends service rest.now result.now }
{
    let (_, mut behind) = split_component(service, rest);
    while let Some(next) = opened(service, behind, Kind::Component) {
        behind = split_component(service, next).1;
    }
    behind
}

// Has any component of the element at the front bytes? The first byte that is no component mark tells.
#[tactic(auto, using(crate::proofs::Cutting::any_written))]
pub fn has_bytes(service: Service, rest: &[u8]) -> bool
    ensures { result ≡ any_bytes (components_in (cut service false rest.now)) }
{
    for byte in rest {
        match bytes::kind_of(service, *byte) {
            Kind::Component => {}
            Kind::Element | Kind::Terminator => return false,
            Kind::Release | Kind::Plain | Kind::Other => return true,
        }
    }
    false
}
