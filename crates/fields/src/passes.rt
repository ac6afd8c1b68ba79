// The pass over a message whose segments have their homes.
ghost use Rattle.std.specs.Prelude.{◌≡◌, length, take};
ghost use Rattle.guide.specs.meaning.Guide.{guide_of};
ghost use Rattle.fields.specs.method.Testing.{first_fault, FirstInReach};

use crate::fault;
use reading::service::Service;

// 01, number 12: the first place, counted from 1, its line, and the smallest (element, component) at fault there.
#[derive(Clone, Copy, PartialEq, Eq, Debug)]
pub struct FirstFault {
    pub place: u32,
    pub line: u32,
    pub element: usize,
    pub component: usize,
}

// Tests so many segments, as far as both tables reach: each one starts where the table says, and its home is its line.
#[tactic(auto, using(crate::proofs::Segments::testing))]
pub fn test_fields(
    service: Service,
    message: &[u8],
    segments: u32,
    book: &[u8],
    starts: &[u32],
    homes: &[u32],
) -> Result<(), FirstFault>
    ensures value { result ≡ first_fault service (guide_of book.now) message.now 0 (take segments starts.now) (take segments homes.now) }
    ensures near { FirstInReach (length message.now) result }
{
    for before in 0..segments {
        let at = before as usize;
        if at >= starts.len() || at >= homes.len() {
            return Ok(());
        }
        let line = homes[at];
        if let Err(fault) = fault::find_fault(service, message, starts[at] as usize, book, line) {
            return Err(FirstFault {
                place: before + 1,
                line,
                element: fault.element,
                component: fault.component,
            });
        }
    }
    Ok(())
}
