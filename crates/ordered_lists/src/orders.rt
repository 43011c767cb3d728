//! The orders in which worlds and fields stand.

ghost use Rattle.std.specs.Prelude.{◌≡◌};
ghost use Rattle.byte_text.specs.Names.{before, same};

use byte_text::Name;

/// Whether the first name stands before the second in byte order.
pub fn is_before(first: &Name, second: &Name) -> bool
    ensures { result ≡ before first.now second.now }
{
    first < second
}

/// Whether the names have the same bytes.
pub fn is_same(first: &Name, second: &Name) -> bool
    ensures { result ≡ same first.now second.now }
{
    first == second
}
