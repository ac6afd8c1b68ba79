// A part of a message, as two numbers.
ghost use Rattle.std.specs.Prelude.{◌≡◌};
ghost use Rattle.reading.specs.meaning.Component.{span};

// From the offset `start` up to, and not including, the offset `end`.
// Stays: a type of its own, since std's Range is not Copy.
#[derive(Clone, Copy, PartialEq, Eq, Debug)]
pub struct Span {
    pub start: usize,
    pub end: usize,
}

impl Span {
    // The empty part at an offset.
    pub fn empty_at(offset: usize) -> Span
        ensures { result ≡ span offset offset }
    {
        Span {
            start: offset,
            end: offset,
        }
    }
}
