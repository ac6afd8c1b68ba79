// The answer record: one struct by value; and how it goes into a lent table.
ghost use Rattle.std.specs.Prelude.{◌≡◌};
ghost use Rattle.slices.specs.meaning.Lent.{as_many_as_fit};
ghost use Rattle.framing.specs.meaning.Record.{answer, numbers_of};

// Where: a segment's number (an offset for number 4), the guide's line, and the element and component in the segment.
#[derive(Clone, Copy, PartialEq, Eq, Debug, Default)]
pub struct Place {
    pub at: u32,
    pub line: u32,
    pub element: u32,
    pub component: u32,
}

// 01's six numbers. Entries that a number does not name are 0.
#[derive(Clone, Copy, PartialEq, Eq, Debug, Default)]
pub struct Verdict {
    pub number: u32,
    pub place: Place,
    pub condition: u32,
}

impl Verdict {
    // A number with its place alone.
    pub fn answer(number: u32, at: u32) -> Verdict
        ensures { result ≡ answer number at }
    {
        let place = Place {
            at,
            ..Place::default()
        };
        Verdict {
            number,
            place,
            ..Verdict::default()
        }
    }
}

// In 01's order.
impl From<Verdict> for [u32; 6] {
    ghost use Rattle.std.specs.Prelude.{◌≡◌};
    ghost use Rattle.framing.specs.meaning.Record.{numbers_of};

    ghost from_gives = { λ verdict numbers. numbers ≡ numbers_of verdict };

    fn from(verdict: Verdict) -> [u32; 6] {
        [
            verdict.number,
            verdict.place.at,
            verdict.place.line,
            verdict.place.element,
            verdict.place.component,
            verdict.condition,
        ]
    }
}

// The six numbers in 01's order, as many as fit.
pub fn put_verdict(numbers: &mut [u32], verdict: Verdict)
    ensures { numbers.new ≡ as_many_as_fit (numbers_of verdict) numbers.old }
{
    let entries = <[u32; 6]>::from(verdict);
    let fitting = entries.len().min(numbers.len());
    numbers[..fitting].copy_from_slice(&entries[..fitting]);
}
