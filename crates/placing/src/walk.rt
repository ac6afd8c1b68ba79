// The walk through the lines of a guide book, home by home.
ghost use Rattle.std.specs.Prelude.{◌≡◌, cond, suc, ◌+◌, ◌-◌, ◌≤◌, ◌<◌, ◌^◌, drop};
ghost use Rattle.guide.specs.meaning.Plan.{plan_in};
ghost use Rattle.guide.specs.meaning.Plan.{is_trigger};
ghost use Rattle.guide.specs.method.Targets.{target};
ghost use Rattle.placing.specs.method.Walking.{is_wanted, is_clear, is_passed, can_close, can_close_all, can_move, raised, admits, advanced, start, is_alive, open_lines, SegmentLine};

use arrayvec::ArrayVec;
use guide::layout;

// Lines lie at depths 0 to 7.
pub const DEPTHS: usize = 8;

// An open line and how often it has come in its parent's instance.
#[derive(Clone, Copy, Default)]
pub struct Level {
    pub line: u32,
    pub count: u32,
}

// The open lines, outermost first; none once a home has been refused.
#[derive(Drop)]
pub struct Walk {
    pub levels: ArrayVec<Level, DEPTHS>,
}

fn depth_of(book: &[u8], line: u32) -> usize
    ensures value { result ≡ (plan_in book.now).depth line }
    ensures small { result < 256 }
{
    layout::depth(book, line) as usize
}

// ---- the line that a home opens or repeats

pub fn is_trigger(book: &[u8], line: u32) -> bool
    ensures { result ≡ is_trigger (plan_in book.now) line }
{
    line >= 2 && layout::is_group(book, line - 1)
}

// A trigger opens its group.
#[tactic(auto, using(crate::proofs::Steps::target_group, crate::proofs::Steps::target_self))]
pub fn target_of(book: &[u8], line: u32) -> u32
    ensures value { result ≡ target (plan_in book.now) line }
    ensures low { result ≤ line }
{
    if is_trigger(book, line) {
        return line - 1;
    }
    line
}

// The depth of that line.
pub fn target_depth(book: &[u8], line: u32) -> usize
    ensures value { result ≡ (plan_in book.now).depth (target (plan_in book.now) line) }
    ensures small { result < 256 }
{
    depth_of(book, target_of(book, line))
}

// How many depths a line's place may have: a group needs one more below it, for its trigger.
fn depths_for(opens: bool) -> usize
    ensures { result ≡ cond opens 7 8 }
{
    DEPTHS - usize::from(opens)
}

// ---- leaving lines out

fn is_wanted(book: &[u8], depth: usize, line: u32) -> bool
    ensures { result ≡ is_wanted (plan_in book.now) depth line }
{
    depth_of(book, line) == depth && layout::required(book, line) == 1
}

// Can the lines from the first up to the end be left out where lines of this depth are awaited? None of that depth is required.
// `outside` is the answer where a line ends the instance that has such lines.
#[tactic(auto, using(crate::proofs::Loops::left_end, crate::proofs::Loops::left_shallow, crate::proofs::Loops::left_awaited))]
fn can_leave_out(book: &[u8], depth: usize, first: u32, end: u32, outside: bool) -> bool
    ensures { result ≡ cond outside (is_clear (plan_in book.now) depth first (end - first)) (is_passed (plan_in book.now) depth first (end - first)) }
{
    for line in first..end {
        if depth_of(book, line) < depth {
            return outside;
        }
        if is_wanted(book, depth, line) {
            return false;
        }
    }
    true
}

// Can the instance whose last line, of this depth, is open be closed?
fn can_close(book: &[u8], level: Level, depth: usize) -> bool
    ensures { result ≡ can_close (plan_in book.now) depth level }
{
    let lines = layout::lines(book);
    lines <= level.line || can_leave_out(book, depth, level.line + 1, lines + 1, true)
}

// ---- one home more

// May line `to` come after the open line of its depth: once more, or on?
fn can_move(book: &[u8], level: Level, to: u32) -> bool
    ensures { result ≡ can_move (plan_in book.now) level to }
{
    if level.line == to {
        return level.count < layout::maximum(book, to);
    }
    level.line < to && can_leave_out(book, depth_of(book, to), level.line + 1, to, false)
}

// The open line where `to` has come once more.
fn raise(level: Level, to: u32) -> Level
    requires { level.line ≡ to → level.count + 1 < 2 ^ 32 }
    ensures { result ≡ raised level to }
{
    if level.line == to {
        return Level {
            count: level.count + 1,
            ..level
        };
    }
    Level { line: to, count: 1 }
}

impl Walk {
    // Before the first home: the message itself is open.
    pub fn begin() -> Walk
        ensures { open_lines result ≡ start }
    {
        let mut levels = ArrayVec::new();
        levels.push(Level { line: 0, count: 1 });
        Walk { levels }
    }

    // Has no home been refused?
    pub fn is_alive(&self) -> bool
        ensures { result ≡ is_alive (open_lines self.now) }
    {
        !self.levels.is_empty()
    }

    // Can every open instance with lines of this depth and deeper be closed?
    #[tactic(auto, using(crate::proofs::Steps::shut_step, crate::proofs::Steps::shut_end))]
    fn can_close_all(&self, book: &[u8], depth: usize) -> bool
        ensures { result ≡ can_close_all (plan_in book.now) depth (drop depth (open_lines self.now)) }
    {
        for at in depth..self.levels.len() {
            if !can_close(book, self.levels[at], at) {
                return false;
            }
        }
        true
    }

    // May line `to`, of this depth, come now?
    #[tactic(auto, using(crate::proofs::Steps::admits_high, crate::proofs::Steps::admits_low))]
    fn admits(&self, book: &[u8], to: u32, depth: usize) -> bool
        requires its_own { depth ≡ (plan_in book.now).depth to }
        requires small { depth < 256 }
        ensures { result ≡ admits (plan_in book.now) (open_lines self.now) to }
    {
        depth < self.levels.len()
            && can_move(book, self.levels[depth], to)
            && self.can_close_all(book, depth + 1)
    }

    // One home more. The open line of its depth has come once more, and nothing below it is open but, where it opens an instance,
    // that one's trigger.
    #[tactic(auto, using(crate::proofs::Steps::advance_deep, crate::proofs::Steps::advance_no))]
    pub fn advance(&mut self, book: &[u8], home: u32)
        requires { SegmentLine (plan_in book.now) home }
        ensures { open_lines self.new ≡ advanced (plan_in book.now) (open_lines self.old) home }
    {
        let opens = is_trigger(book, home);
        let to = target_of(book, home);
        let depth = depth_of(book, to);
        if depths_for(opens) <= depth || !self.admits(book, to, depth) {
            self.levels.clear();
            return;
        }
        let level = raise(self.levels[depth], to);
        self.levels.truncate(depth);
        self.levels.push(level);
        if opens {
            self.levels.push(Level {
                line: home,
                count: 1,
            });
        }
    }
}
