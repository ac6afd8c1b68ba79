// One element's components against the fields of the line that are left, which are a range of the book's. The fields rise, so each step
// only asks for the next.
ghost use Rattle.std.specs.Prelude.{◌≡◌, false};
ghost use Rattle.guide.specs.meaning.Guide.{guide_of};
ghost use Rattle.fields.specs.method.Parts.{cut, components_in};
ghost use Rattle.fields.specs.method.Testing.{kept, names_first, test_component, test_absent, test_components, test_element};
ghost use Rattle.fields.specs.method.Kept.{fields_in, tested_by, FaultWithin, ClosesBy, when_closed};

use crate::fault::Fault;
use crate::{field, parts};
use guide::layout;
use reading::bytes::Kind;
use reading::service::Service;
use std::ops::Range;

// An element without a fault: what stands behind it, and the fields that are left.
#[derive(Drop)]
pub struct Closed<'a> {
    pub behind: &'a [u8],
    pub left: Range<u32>,
}

// Does the first of the fields that are left name this component?
#[tactic(auto, using(crate::proofs::Stepping::naming))]
fn names_first(book: &[u8], element: usize, component: usize, left: &Range<u32>) -> bool
    ensures { result ≡ names_first (guide_of book.now) element component (fields_in left.now) }
{
    left.start < left.end
        && layout::element(book, left.start) as usize == element
        && layout::component(book, left.start) as usize == component
}

// The fields that are left behind this component.
#[tactic(auto, using(crate::proofs::Stepping::one_component))]
fn test_component(
    service: Service,
    book: &[u8],
    some: bool,
    element: usize,
    component: usize,
    part: &[u8],
    left: Range<u32>,
) -> Result<Range<u32>, Fault>
    ensures value { test_component service (guide_of book.now) some element component part.now (fields_in left) ≡ tested_by result }
    ensures within { FaultWithin element component left result }
{
    let fault = Fault { element, component };
    if names_first(book, element, component, &left) {
        if field::is_broken(service, book, some, left.start, part) {
            return Err(fault);
        }
        return Ok(left.start + 1..left.end);
    }
    if part.is_empty() {
        Ok(left)
    } else {
        Err(fault)
    }
}

// The fields of the element beyond its last component.
#[tactic(auto, using(crate::proofs::Stepping::absent))]
fn test_absent(
    book: &[u8],
    some: bool,
    element: usize,
    left: Range<u32>,
) -> Result<Range<u32>, Fault>
    ensures value { test_absent (guide_of book.now) some element (fields_in left) ≡ tested_by result }
    ensures within { FaultWithin element 255 left result }
{
    let last = left.end;
    for field in left {
        if layout::element(book, field) as usize != element {
            return Ok(field..last);
        }
        if field::is_missing(book, some, field) {
            let component = layout::component(book, field) as usize;
            return Err(Fault { element, component });
        }
    }
    Ok(last..last)
}

// Its components, from the first on.
#[tactic(auto, using(crate::proofs::Stepping::going))]
fn test_components<'a>(
    service: Service,
    mut rest: &'a [u8],
    book: &[u8],
    some: bool,
    element: usize,
    mut left: Range<u32>,
) -> Result<Closed<'a>, Fault>
    ensures value { test_components service (guide_of book.now) some element 1 (components_in (cut service false rest.now)) (fields_in left) ≡ when_closed result (λ left. test_absent (guide_of book.now) some element (fields_in left)) }
    ensures closes { ClosesBy service rest.now element left result }
{
    let mut component: usize = 1;
    // Stays: it goes from mark to mark, and how many components there are shows only at the last.
    loop {
        let (part, behind) = parts::split_component(service, rest);
        left = test_component(service, book, some, element, component, part, left)?;
        let Some(next) = parts::opened(service, behind, Kind::Component) else {
            return Ok(Closed { behind, left });
        };
        component += 1;
        rest = next;
    }
}

#[tactic(auto, using(crate::proofs::Stepping::within_on))]
pub fn test_element<'a>(
    service: Service,
    rest: &'a [u8],
    book: &[u8],
    element: usize,
    left: Range<u32>,
) -> Result<Closed<'a>, Fault>
    ensures value { test_element service (guide_of book.now) element (components_in (cut service false rest.now)) (fields_in left) ≡ when_closed result (λ left. kept (fields_in left)) }
    ensures closes { ClosesBy service rest.now element left result }
{
    let some = parts::has_bytes(service, rest);
    let closed = test_components(service, rest, book, some, element, left)?;
    let left = test_absent(book, some, element, closed.left)?;
    Ok(Closed {
        behind: closed.behind,
        left,
    })
}
