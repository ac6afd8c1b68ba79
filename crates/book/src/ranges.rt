// Ranges that a record names, by their first and their count.
ghost use Rattle.std.specs.Prelude.{◌≡◌, ◌<◌, ◌^◌};
ghost use Rattle.book.specs.method.Run.{run};
ghost use Rattle.book.specs.meaning.GoodBook.{range_rule};

// Does a range stay inside a block of that size, and begin at 0 if it is empty?
#[tactic(auto, unfolding(crate::specs::meaning::GoodBook::range_rule))]
pub fn is_range(first: u32, count: u32, size: u32) -> bool
    requires { (first < 2 ^ 17) × (count < 2 ^ 17) }
    ensures { result ≡ run (range_rule first count size) }
{
    first + count <= size && (count != 0 || first == 0)
}
