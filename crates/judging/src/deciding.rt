// The judge: one message, one guide book, and what is known of the conditions.
ghost use Rattle.std.specs.Prelude.{◌≡◌};
ghost use Rattle.judging.specs.method.Table.{judged, tables_after};
ghost use Rattle.judging.specs.meaning.Tables.{tables, room_of};

use crate::{placed, refusing};
use framing::{Room, Verdict};
use reading::service::Service;

// The verdict on a message under given service characters, and its tree in the lent tables. Any bytes will do; tables that are too short
// are refused. The refusals come first, since nothing that is written could be restored.
pub fn judge(
    service: Service,
    message: &[u8],
    book: &[u8],
    conditions: &[u8],
    starts: &mut [u32],
    homes: &mut [u32],
    parents: &mut [u32],
) -> Verdict
    ensures { (result ≡ judged service message.now book.now conditions.now (room_of (tables starts.old homes.old parents.old)))
        × (tables starts.new homes.new parents.new
        ≡ tables_after service message.now book.now conditions.now (tables starts.old homes.old parents.old)) }
{
    let room = Room {
        starts: starts.len(),
        homes: homes.len(),
        parents: parents.len(),
    };
    let segments = match refusing::refuse(service, message, book, conditions, room) {
        Ok(segments) => segments,
        Err(refusal) => return refusal.into(),
    };
    placing::write_tree(service, message, segments, book, starts, homes, parents);
    match placed::find_fault(service, message, segments, book, conditions, starts, homes) {
        Ok(()) => Verdict::answer(0, segments),
        Err(fault) => fault.into(),
    }
}
