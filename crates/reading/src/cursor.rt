// A reading place that moves on from segment to segment.
ghost use Rattle.std.specs.Prelude.{◌≡◌};
ghost use Rattle.reading.specs.method.Machine.{next_segment};

use crate::segment;
use crate::service::Service;
use crate::span::Span;

// Stays: no iterator: its contract would need a `next_gives` over `next_segment`, and both passes over segments a `take` and its place: no plainer.
#[derive(Clone, Copy, PartialEq, Eq, Debug)]
pub struct Cursor {
    pub at: usize,
}

impl Cursor {
    // Before a message's first segment.
    pub fn first() -> Cursor
        ensures { result.at ≡ 0 }
    {
        Cursor { at: 0 }
    }

    // The segment that starts here, without its terminator, and the cursor behind that.
    pub fn next_segment(self, service: Service, message: &[u8]) -> Option<(Span, Cursor)>
        ensures { result ≡ next_segment service message.now self.at }
    {
        let end = segment::find_end(service, message, self.at)?;
        Some((
            Span {
                start: self.at,
                end,
            },
            Cursor { at: end + 1 },
        ))
    }
}
