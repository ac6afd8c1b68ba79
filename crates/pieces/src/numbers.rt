// Progress as eight numbers, which the caller keeps. Any eight are a progress; eight zeros are a message not yet begun.
ghost use Rattle.std.specs.Prelude.{◌≡◌};
ghost use Rattle.slices.specs.meaning.Lent.{as_many_as_fit};
ghost use Rattle.pieces.specs.method.Numbers.{state_number, state_of, progress_of, numbers_of, ended};

use crate::progress::Progress;
use reading::machine::State;

// Seven are used; the eighth stays as it is.
pub type Numbers = [usize; 8];

// Stays: no `state as usize`: the numbers are the caller's, and two states with one number are refused by a law of them (kept_told), and not by the spelling.
fn state_number(state: State) -> usize
    ensures { result ≡ state_number state }
{
    match state {
        State::Start => 0,
        State::Second => 1,
        State::Third => 2,
        State::Tagged => 3,
        State::Opened => 4,
        State::Parted => 5,
        State::Inside => 6,
        State::Released => 7,
        State::Dead => 8,
    }
}

// Numbers that stand for no state stand for the one from which nothing leads back.
#[tactic(auto, unfolding(crate::specs::method::Numbers::state_of))]
fn state_of(number: usize) -> State
    ensures { result ≡ state_of number }
{
    match number {
        0 => State::Start,
        1 => State::Second,
        2 => State::Third,
        3 => State::Tagged,
        4 => State::Opened,
        5 => State::Parted,
        6 => State::Inside,
        7 => State::Released,
        _ => State::Dead,
    }
}

impl From<Numbers> for Progress {
    fn from(numbers: Numbers) -> Progress
        ensures { result ≡ progress_of numbers }
    {
        let [ended, state, bytes, bad, segments, start, lacking, _] = numbers;
        Progress {
            ended: ended != 0,
            state: state_of(state),
            bytes,
            bad,
            segments,
            start,
            lacking: lacking != 0,
        }
    }
}

// As many as fit.
pub fn put_progress(numbers: &mut [usize], progress: Progress)
    ensures { numbers.new ≡ as_many_as_fit (numbers_of progress) numbers.old }
{
    let entries = [
        usize::from(progress.ended),
        state_number(progress.state),
        progress.bytes,
        progress.bad,
        progress.segments,
        progress.start,
        usize::from(progress.lacking),
    ];
    let fitting = entries.len().min(numbers.len());
    numbers[..fitting].copy_from_slice(&entries[..fitting]);
}

// The message has ended. Nothing else changes, and where it had ended before nothing does.
pub fn put_end(numbers: &mut Numbers)
    ensures { numbers.new ≡ ended numbers.old }
{
    if numbers[0] == 0 {
        numbers[0] = 1;
    }
}
