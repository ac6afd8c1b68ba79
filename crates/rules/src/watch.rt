// What a pass over the homes watches for on account of one line, and what it finds.
ghost use Rattle.std.specs.Prelude.{◌≡◌, ◌<◌, ◌≤◌, ◌^◌, length, unwrap_or, Ok};
ghost use Rattle.guide.specs.meaning.Guide.{guide_of};
ghost use Rattle.rules.specs.method.Scanning.{watch_of, is_idle, scanned_line};
ghost use Rattle.rules.specs.method.Passing.{IsSegment, reported_at};

use crate::breach::{Breach, weigh_row};
use crate::finding::Finding;
use crate::instances;
use guide::layout;

// The home of the triggers of the line's parent, the home of the segments that show the line, and what its row comes to where the line
// is present and where it is not.
#[derive(Clone, Copy)]
pub struct Watch {
    // Stays: 0 for the message, since what is found is told for any homes, and a home 0 would be one of its triggers.
    pub trigger: u32,
    pub sign: u32,
    pub present: Breach,
    pub absent: Breach,
}

impl Watch {
    // All that one pass over the homes needs to know of a line.
    pub fn of_line(book: &[u8], identifier: u32, conditions: &[u8], line: u32) -> Watch
        requires identifier { identifier < 65536 }
        requires line { (1 ≤ line) × (line ≤ (guide_of book.now).lines) }
        ensures { result ≡ watch_of (guide_of book.now) identifier conditions.now line }
    {
        let lines = layout::lines(book);
        let unbroken = Watch {
            trigger: instances::trigger_of(book, line),
            sign: instances::sign_of(book, line),
            present: Breach::Never,
            absent: Breach::Never,
        };
        // A required line is there in every instance, and its row asks for no more.
        if layout::required(book, line) == 1 {
            return unbroken;
        }
        // Lines run fastest.
        let row = identifier * lines + (line - 1);
        Watch {
            present: weigh_row(book, row, conditions, true),
            absent: weigh_row(book, row, conditions, false),
            ..unbroken
        }
    }

    // Can no instance break the row?
    fn is_idle(self) -> bool
        ensures { result ≡ is_idle self }
    {
        self.present == Breach::Never && self.absent == Breach::Never
    }

    // What is found in one instance: that of this trigger, or the message itself; `seen` is the line's first segment in it.
    fn report(self, line: u32, instance: Option<usize>, seen: Option<usize>) -> Result<(), Finding>
        requires instance { IsSegment instance }
        requires seen { IsSegment seen }
        ensures { result ≡ reported_at self line (unwrap_or instance 0) (unwrap_or seen 0) }
    {
        // What stands before the first trigger of a group is in no instance.
        if instance.is_none() && self.trigger != 0 {
            return Ok(());
        }
        let breach = if seen.is_some() {
            self.present
        } else {
            self.absent
        };
        // 01: the line's first segment in the instance if present, otherwise the parent's trigger (1 for the root).
        let place = seen.or(instance).unwrap_or(1) as u32;
        // 01: number 14 for a row that every filling breaks, 15 for one that only some do.
        match breach {
            Breach::Never => Ok(()),
            Breach::Always => Err(Finding::Broken { place, line }),
            Breach::Sometimes(condition) => Err(Finding::Unsettled {
                place,
                line,
                condition,
            }),
        }
    }

    // Instance by instance of the line's parent, in one pass over the homes: each ends before the next trigger.
    #[tactic(auto, using(crate::proofs::Passing::passes))]
    pub fn scan(self, line: u32, homes: &[u32]) -> Result<(), Finding>
        requires { length homes.now < 2 ^ 32 }
        ensures { result ≡ scanned_line self line homes.now (Ok tt) }
    {
        if self.is_idle() {
            return Ok(());
        }
        let mut instance = None;
        let mut seen = None;
        for (at, &home) in homes.iter().enumerate() {
            let segment = at + 1;
            if home == self.trigger {
                self.report(line, instance, seen)?;
                instance = Some(segment);
                // A trigger may itself show the line.
                seen = (home == self.sign).then_some(segment);
            } else if home == self.sign {
                seen = seen.or(Some(segment));
            }
        }
        self.report(line, instance, seen)
    }
}
