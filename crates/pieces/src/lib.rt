// A message in pieces, cut anywhere: 02, T-09. Between calls the caller keeps eight numbers, and nothing else is kept; the byte's step is the
// machine of crate reading. To be read in this order: progress, piece, answer, numbers, outcome.
#![tactic(auto)]

mod answer;
mod numbers;
mod outcome;
mod piece;
mod progress;

ghost use Rattle.std.specs.Prelude.{◌≡◌};
ghost use Rattle.pieces.specs.method.Calls.{answer_to_piece, numbers_after_piece, starts_after_piece, record_after_piece, answer_to_end, numbers_after_end, record_after_end};
ghost use Rattle.pieces.specs.meaning.Calls.{piece_number, end_number};
ghost use Rattle.pieces.specs.method.Outcomes.{piece_outcome, end_outcome};

use framing::Verdict;
use numbers::Numbers;
pub use outcome::{NoState, end_number, piece_number};
use progress::Progress;
use reading::service::Service;

// One more piece: its answer, if the message has ended. The numbers of such a message give its answer again.
#[tactic(auto, unfolding(crate::specs::method::Outcomes::piece_outcome, crate::specs::method::Calls::answer_to_piece, crate::specs::method::Calls::numbers_after_piece, crate::specs::method::Calls::starts_after_piece, crate::specs::method::Calls::record_after_piece))]
pub fn read_piece(
    service: Service,
    reading: &mut [usize],
    piece: &[u8],
    starts: &mut [u32],
    entries: &mut [u32],
) -> Result<Option<Verdict>, NoState>
    ensures answer { result ≡ piece_outcome reading.old }
    ensures number { piece_number result ≡ answer_to_piece reading.old }
    ensures numbers_left { reading.new ≡ numbers_after_piece service reading.old piece.now starts.old }
    ensures starts_left { starts.new ≡ starts_after_piece service reading.old piece.now starts.old }
    ensures entries_left { entries.new ≡ record_after_piece reading.old entries.old }
{
    let Ok(numbers) = Numbers::try_from(&*reading) else {
        return Err(NoState);
    };
    let progress = Progress::from(numbers);
    if progress.ended {
        let verdict = Verdict::from(progress.answer());
        framing::put_verdict(entries, verdict);
        return Ok(Some(verdict));
    }
    let next = piece::read_on(service, progress, piece, starts);
    numbers::put_progress(reading, next);
    Ok(None)
}

// The message ends: it is answered, and from now on always so.
#[tactic(auto, unfolding(crate::specs::method::Outcomes::end_outcome, crate::specs::method::Calls::answer_to_end, crate::specs::method::Calls::numbers_after_end, crate::specs::method::Calls::record_after_end))]
pub fn read_end(reading: &mut [usize], entries: &mut [u32]) -> Result<Verdict, NoState>
    ensures answer { result ≡ end_outcome reading.old }
    ensures number { end_number result ≡ answer_to_end reading.old }
    ensures numbers_left { reading.new ≡ numbers_after_end reading.old }
    ensures entries_left { entries.new ≡ record_after_end reading.old entries.old }
{
    let Ok(mut numbers) = Numbers::try_from(&*reading) else {
        return Err(NoState);
    };
    let verdict = Verdict::from(Progress::from(numbers).answer());
    framing::put_verdict(entries, verdict);
    numbers::put_end(&mut numbers);
    reading.copy_from_slice(&numbers);
    Ok(verdict)
}
