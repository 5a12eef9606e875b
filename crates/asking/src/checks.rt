// What `ask` says of a list: the answers of both checks.
ghost use Rattle.std.specs.Prelude.{◌≤◌, ◌<◌, length};
ghost use Rattle.paper.specs.Text.{ask_says};
ghost use Rattle.asking.specs.Standing.{Standing, prepared_area};
ghost use Rattle.asking.specs.Printed.{Printed};

use convex::line_convex_checker::is_node_convex as line_check;
use convex::topo_convex_checker::is_node_convex as order_check;
use wording::put_answers;

// Asks both checks about a list, in the area that the lists before left.
pub fn say_checks(map: &[u8], area: &mut [u16], list: &[u16], out: &mut [u8]) -> usize
    requires standing { Standing map.now area.old }
    requires in_bounds { 110 ≤ length out.old }
    ensures printed { Printed map.now area.new (ask_says map.now (prepared_area map.now) list.now) out.old out.new result }
    ensures upper_bound { result < 3200 }
{
    let line = line_check(map, area, list);
    let order = order_check(map, area, list);
    put_answers(out, line, order)
}
