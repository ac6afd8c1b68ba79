// The least fault of one segment against its line: one pass over the segment's bytes and the line's fields.
ghost use Rattle.std.specs.Prelude.{◌≡◌, ◌+◌, length, drop};
ghost use Rattle.guide.specs.meaning.Guide.{guide_of};
ghost use Rattle.fields.specs.method.Testing.{test_rest, fault_at, InReach};
ghost use Rattle.fields.specs.method.Kept.{fields_in};

use crate::{element, field, parts};
use guide::layout;
use reading::bytes::Kind;
use reading::service::Service;
use std::ops::Range;

// 01, number 12: a place at fault in its segment.
#[derive(Clone, Copy, PartialEq, Eq, Debug)]
pub struct Fault {
    pub element: usize,
    pub component: usize,
}

// What stands behind the segment's tag: nothing where the message ends before.
fn behind_tag(message: &[u8], at: usize) -> &[u8]
    ensures { result.now ≡ drop (at + 3) message.now }
{
    &message[at.saturating_add(3).min(message.len())..]
}

// The fields of elements beyond the segment's last.
#[tactic(auto, using(crate::proofs::Stepping::rest))]
fn test_rest(book: &[u8], left: Range<u32>) -> Result<(), Fault>
    ensures value { result ≡ test_rest (guide_of book.now) (fields_in left) }
    ensures near { InReach 0 result }
{
    for field in left {
        if field::is_missing(book, false, field) {
            return Err(Fault {
                element: layout::element(book, field) as usize,
                component: layout::component(book, field) as usize,
            });
        }
    }
    Ok(())
}

// 01, number 12: the smallest (element, component) at fault, if any is.
#[tactic(auto, using(crate::proofs::Stepping::passing))]
pub fn find_fault(
    service: Service,
    message: &[u8],
    at: usize,
    book: &[u8],
    line: u32,
) -> Result<(), Fault>
    ensures value { result ≡ fault_at service (guide_of book.now) message.now at line }
    ensures near { InReach (length message.now) result }
{
    let first = layout::first_field(book, line);
    let mut left = first..first + layout::field_count(book, line);
    let mut element: usize = 0;
    let mut behind = parts::skip_to_element(service, behind_tag(message, at));
    // Stays: it goes from mark to mark, and how many elements there are shows only at the last.
    while let Some(rest) = parts::opened(service, behind, Kind::Element) {
        element += 1;
        let closed = element::test_element(service, rest, book, element, left)?;
        left = closed.left;
        behind = closed.behind;
    }
    test_rest(book, left)
}
