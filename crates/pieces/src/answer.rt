// What a message is answered that ends here: 3 to 6, or 0 with the segments' number.
ghost use Rattle.std.specs.Prelude.{◌≡◌};
ghost use Rattle.framing.specs.method.Refusals.{told};
ghost use Rattle.pieces.specs.method.Progress.{is_complete, answer_of};

use crate::progress::Progress;
use framing::Refusal;
use framing::limits::{LIMIT_BYTES, LIMIT_SEGMENTS};
use reading::machine;

impl Progress {
    // Do whole segments, at least one, and nothing else make up what has come?
    fn is_complete(self) -> bool
        ensures { result ≡ is_complete self }
    {
        machine::is_start(self.state) && 0 < self.segments
    }

    #[tactic(auto, unfolding(crate::specs::method::Progress::answer_of))]
    pub fn answer(self) -> Result<u32, Refusal>
        ensures { told result ≡ answer_of self }
    {
        if self.bytes == 0 || LIMIT_BYTES < self.bytes {
            return Err(Refusal::Size);
        }
        if !self.is_complete() {
            // where no byte is bad, the message is cut short at its end
            let place = self.first_bad(self.bytes);
            return Err(Refusal::BadByte(slices::entry_of(place)));
        }
        if LIMIT_SEGMENTS < self.segments {
            return Err(Refusal::TooManySegments);
        }
        if self.lacking {
            return Err(Refusal::NoRoom(slices::entry_of(self.segments)));
        }
        Ok(slices::entry_of(self.segments))
    }
}
