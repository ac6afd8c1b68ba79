// The tree: for each segment the trigger of the innermost instance that holds it.
ghost use Rattle.std.specs.Prelude.{◌≡◌, ◌<◌, length};
ghost use Rattle.guide.specs.meaning.Plan.{plan_in};
ghost use Rattle.placing.specs.method.Tree.{root_only, parent_in, opened_by};

use crate::walk;
use crate::walk::DEPTHS;

// For each depth the number of the trigger whose instance was opened there last; 0 for the message itself.
// Stays: 0, and no Option, is what the lent table of parents has at the root (C interface).
#[derive(Clone, Copy)]
pub struct Trail {
    pub triggers: [u32; DEPTHS],
}

impl Trail {
    pub fn begin() -> Trail
        ensures { result.triggers ≡ root_only }
    {
        Trail {
            triggers: [0; DEPTHS],
        }
    }

    // The segment number of the trigger whose instance holds a segment of this home; 0 at the root.
    pub fn parent_of(&self, book: &[u8], home: u32) -> u32
        ensures { result ≡ parent_in (plan_in book.now) self.now.triggers home }
    {
        let depth = walk::target_depth(book, home);
        self.triggers.get(depth).copied().unwrap_or(0)
    }

    // The segment of this number and home opens an instance, if it is a trigger.
    #[tactic(auto, using(crate::proofs::Steps::open_not, crate::proofs::Steps::open_here, crate::proofs::Steps::open_too_deep))]
    pub fn open_instance(&mut self, book: &[u8], home: u32, number: u32)
        ensures { self.new.triggers ≡ opened_by (plan_in book.now) self.old.triggers home number }
    {
        if walk::is_trigger(book, home) {
            let depth = walk::target_depth(book, home) + 1;
            if depth < DEPTHS {
                self.triggers[depth] = number;
            }
        }
    }
}
