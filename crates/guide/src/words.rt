// The words that a book says by a number. 01, "The guide book". A number that stands for no word is NoWord: any bytes are a book.
ghost use Rattle.guide.specs.method.Spoken.{SpeaksKind, SpeaksPresence, SpeaksForm, SpeaksMode, SpeaksJoint};

// No word has the number.
#[derive(Clone, Copy, PartialEq, Eq, Debug)]
pub struct NoWord;

// A line: "kind (1 segment, 2 group)".
#[derive(Clone, Copy, PartialEq, Eq, Debug)]
pub enum LineKind {
    Segment,
    Group,
}

// A field: "presence (0 must be empty, 1 must have bytes, 2 may, 3 must if any component of its element has bytes)".
#[derive(Clone, Copy, PartialEq, Eq, Debug)]
pub enum Presence {
    Empty,
    Must,
    May,
    WithElement,
}

// "form (1 an, 2 n)".
#[derive(Clone, Copy, PartialEq, Eq, Debug)]
pub enum Form {
    Text,
    Number,
}

// A row: "Modes: 0 never, 1 must, 2 may, 3 must if the expression holds and otherwise never, 4 may if it holds and otherwise never."
#[derive(Clone, Copy, PartialEq, Eq, Debug)]
pub enum Mode {
    Never,
    Must,
    May,
    MustIf,
    MayIf,
}

// "Joint 1 is all, 2 is any".
#[derive(Clone, Copy, PartialEq, Eq, Debug)]
pub enum Joint {
    All,
    Any,
}

// A literal in a row's expression: "a byte is the number, plus 128 for "not"".
pub const NEGATED: u32 = 128;

impl TryFrom<u32> for LineKind {
    type Error = NoWord;

    ghost try_from_gives = { SpeaksKind };

    fn try_from(number: u32) -> Result<Self, NoWord> {
        match number {
            1 => Ok(LineKind::Segment),
            2 => Ok(LineKind::Group),
            _ => Err(NoWord),
        }
    }
}

impl TryFrom<u32> for Presence {
    type Error = NoWord;

    ghost try_from_gives = { SpeaksPresence };

    fn try_from(number: u32) -> Result<Self, NoWord> {
        match number {
            0 => Ok(Presence::Empty),
            1 => Ok(Presence::Must),
            2 => Ok(Presence::May),
            3 => Ok(Presence::WithElement),
            _ => Err(NoWord),
        }
    }
}

impl TryFrom<u32> for Form {
    type Error = NoWord;

    ghost try_from_gives = { SpeaksForm };

    fn try_from(number: u32) -> Result<Self, NoWord> {
        match number {
            1 => Ok(Form::Text),
            2 => Ok(Form::Number),
            _ => Err(NoWord),
        }
    }
}

impl TryFrom<u32> for Mode {
    type Error = NoWord;

    ghost try_from_gives = { SpeaksMode };

    fn try_from(number: u32) -> Result<Self, NoWord> {
        match number {
            0 => Ok(Mode::Never),
            1 => Ok(Mode::Must),
            2 => Ok(Mode::May),
            3 => Ok(Mode::MustIf),
            4 => Ok(Mode::MayIf),
            _ => Err(NoWord),
        }
    }
}

impl TryFrom<u32> for Joint {
    type Error = NoWord;

    ghost try_from_gives = { SpeaksJoint };

    fn try_from(number: u32) -> Result<Self, NoWord> {
        match number {
            1 => Ok(Joint::All),
            2 => Ok(Joint::Any),
            _ => Err(NoWord),
        }
    }
}
