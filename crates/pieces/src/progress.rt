// How far reading has come, by value: all that is kept between two pieces.
ghost use Rattle.std.specs.Prelude.{◌≡◌};
ghost use Rattle.framing.specs.meaning.Limits.{most_segments};
ghost use Rattle.pieces.specs.method.Progress.{one_more, reached_before, lacks, with_start, segment_ended, failed_at, gone_on};

use framing::limits::LIMIT_SEGMENTS;
use reading::machine;
use reading::machine::State;

// Stays: two flags and `bad`, which counts only in a dead state, and no Option: any eight numbers are a progress, and what is not read of them stays as it was.
#[derive(Clone, Copy, PartialEq, Eq, Debug)]
pub struct Progress {
    // the message has ended
    pub ended: bool,
    // where the machine stands
    pub state: State,
    // how many bytes have come; one over the most stands for any more
    pub bytes: usize,
    // where the first bad byte stood, once the machine is past one
    pub bad: usize,
    // how many segments have ended; one over the most stands for any more
    pub segments: usize,
    // where the segment starts that is being read
    pub start: usize,
    // a segment's start found no entry
    pub lacking: bool,
}

// One segment more, up to one over the most: a count that never restarts.
// Stays: no `saturating_add`, which stops at the type's largest number and not at one over the most.
fn one_more(segments: usize) -> usize
    ensures { result ≡ one_more most_segments segments }
{
    if segments <= LIMIT_SEGMENTS {
        segments + 1
    } else {
        segments
    }
}

impl Progress {
    // Where the first bad byte stands: at an offset that reading has come to, unless there was one before.
    pub fn first_bad(self, at: usize) -> usize
        ensures { result ≡ reached_before self at }
    {
        if machine::is_dead(self.state) {
            self.bad
        } else {
            at
        }
    }

    // Is the start of the segment that ends to be told, in a table that has no entry for it?
    fn lacks_entry(self, room: usize) -> bool
        ensures { result ≡ lacks self.segments room }
    {
        self.segments < LIMIT_SEGMENTS && room <= self.segments
    }

    // The start of the segment that ends goes into the table, if it is among the first 999,999 and fits.
    pub fn put_start(self, starts: &mut [u32])
        ensures { starts.new ≡ with_start self.segments self.start starts.old }
    {
        if self.segments < LIMIT_SEGMENTS {
            slices::put(starts, self.segments, slices::entry_of(self.start));
        }
    }

    // A segment has ended, in front of this offset.
    pub fn end_segment(self, room: usize, behind: usize) -> Progress
        ensures { result ≡ segment_ended self room behind }
    {
        Progress {
            state: State::Start,
            bytes: behind,
            segments: one_more(self.segments),
            start: behind,
            lacking: self.lacking | self.lacks_entry(room),
            ..self
        }
    }

    // The machine has failed, at an offset or before, and so many bytes have come.
    pub fn fail_at(self, at: usize, bytes: usize) -> Progress
        ensures { result ≡ failed_at self at bytes }
    {
        Progress {
            state: State::Dead,
            bytes,
            bad: self.first_bad(at),
            ..self
        }
    }

    // So many bytes have come, and a segment goes on.
    pub fn go_on(self, state: State, bytes: usize) -> Progress
        ensures { result ≡ gone_on self state bytes }
    {
        Progress {
            state,
            bytes,
            ..self
        }
    }
}
