// The codes numbered by value: two have the same number exactly when they are the same eight bytes. This is paid once, with the
// square of the code count at most; whoever compares codes then compares numbers that are small enough for the index of a table.
ghost use Rattle.std.specs.Prelude.{◌≡◌, ℕ, ◌<◌, ◌^◌, get_or};
ghost use Rattle.guide.specs.meaning.Guide.{guide_of};
ghost use Rattle.book.specs.method.Tables.{whole_code, FirstOf, Numbered};

use guide::layout;

// More codes than a book of 65,535 bytes has room for.
pub const MOST_CODES: usize = 8192;

// For each code its number.
pub type Numbers = [u32; MOST_CODES];

fn whole_code(book: &[u8], code: u32) -> u64
    ensures { result ≡ whole_code (guide_of book.now) code }
{
    u64::from(layout::code_low(book, code)) + (u64::from(layout::code_high(book, code)) << 32)
}

// The first place of a place's value: that place itself, if none before has it. The loop that is run most often, so it is a function of
// its own: inlined into the whole check, where each test may be the last, it is taken for cold and not aligned.
#[inline(never)]
fn first_of_value(values: &[u64; MOST_CODES], place: u32) -> u32
    requires { place < 2 ^ 13 }
    ensures { FirstOf (λ (i : ℕ). get_or values.now i 0) place result }
{
    let value = values[place as usize];
    let mut first: u32 = 0;
    // Stays: it ends at the place itself, so a turn is one comparison; by `position` it is two, and the book check took twice as long.
    // It counts in `u32`: at `usize` an addition comes between a turn's comparison and its jump, and the check took 1.2 times as long.
    while values[first as usize] != value {
        first += 1;
    }
    first
}

// A code's number is that of the first code with its value.
pub fn numbers_of(book: &[u8]) -> Numbers
    requires { (guide_of book.now).codes < 2 ^ 13 }
    ensures { Numbered (guide_of book.now) result }
{
    let mut values = [0u64; MOST_CODES];
    let mut numbers = [0u32; MOST_CODES];
    for code in 0..layout::codes(book) {
        values[code as usize] = whole_code(book, code);
        numbers[code as usize] = first_of_value(&values, code);
    }
    numbers
}

// A book with its codes numbered. The table of 32 KB is lent, since by value it would be on the stack twice.
#[derive(Clone, Copy)]
pub struct Codes<'a> {
    pub book: &'a [u8],
    pub numbers: &'a Numbers,
    ghost numbered: { Numbered (guide_of book.now) numbers.now },
}

impl<'a> Codes<'a> {
    // The number of a code, which is a place in a table.
    #[tactic(auto, using(crate::proofs::Tables::in_table))]
    pub fn number_of(&self, code: u32) -> usize
        requires { code < (guide_of self.now.book.now).codes }
        ensures value { result ≡ get_or self.now.numbers.now code 0 }
        ensures small { result < 2 ^ 13 }
    {
        self.numbers[code as usize] as usize
    }
}
