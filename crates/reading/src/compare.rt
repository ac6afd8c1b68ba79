// Two components, compared by value.
ghost use Rattle.std.specs.Prelude.{◌≡◌};
ghost use Rattle.reading.specs.meaning.Component.{same_component};

// Two components have the same value exactly when they have the same bytes (law raw_is_value): nothing is released
// that need not be.
pub fn same_component(left: &[u8], right: &[u8]) -> bool
    ensures { result ≡ same_component left.now right.now }
{
    left == right
}
