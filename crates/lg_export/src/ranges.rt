//! Ranges by widths.

ghost use Rattle.std.specs.Prelude.{◌≡◌, ◌≤◌};
ghost use Rattle.lg_export.specs.Layout.{range_of};

use lg_vtree::Range;

// The range of a name of so many bits.
pub fn range_of(width: u32) -> Range
    requires { 1 ≤ width }
    ensures { result ≡ range_of width }
{
    if width == 1 {
        Range::bit()
    } else {
        Range::down_from(u128::from(width - 1))
    }
}
