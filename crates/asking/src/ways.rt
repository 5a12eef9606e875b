// What `why` says of a list: the path that leaves it and comes back, or that there is none.
ghost use Rattle.std.specs.Prelude.{◌≡◌, ◌≤◌, ◌<◌, length};
ghost use Rattle.paper.specs.Text.{why_says};
ghost use Rattle.asking.specs.Standing.{Standing, prepared_area};
ghost use Rattle.asking.specs.Printed.{Printed};

use convex::path::show_path;
use wording::put_way;

// Asks for the path, in the area that the lists before left.
pub fn say_path(map: &[u8], area: &mut [u16], list: &[u16], out: &mut [u8]) -> usize
    requires standing { Standing map.now area.old }
    requires in_bounds { 3200 ≤ length out.old }
    ensures printed { Printed map.now area.new (why_says map.now (prepared_area map.now) list.now) out.old out.new result }
    ensures upper_bound { result < 3200 }
{
    // Room for the longest path: 512 steps outside the list, and its two ends.
    let mut path = [0u16; 514];
    let answer = show_path(map, area, list, &mut path);
    put_way(out, answer, &path)
}
