// The end of every call but preparing: the scratch left at 0.
ghost use Rattle.std.specs.Prelude.{◌≡◌};
ghost use Rattle.opening.specs.Opened.{HasScratch, scratch_zeroed};

use tables::Layout;
use words::section::fill;

// Sets the scratch to 0.
pub fn clear_scratch(area: &mut [u16], at: Layout)
    requires { HasScratch area.old at }
    ensures { area.new ≡ scratch_zeroed area.old at }
{
    fill(area, at.scratch, at.end - at.scratch, 0);
}
