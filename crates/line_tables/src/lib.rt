// Translated from src/algorithms/convex/line_convex_checker.rs of portgraph (88172a3c8e, Apache-2.0, see NOTICE), and changed: `new`
// lays the lines into the lent area.
#![tactic(auto)]

pub mod frontier;
pub mod nodes;
pub mod room;
pub mod spread;

ghost use Rattle.std.specs.Prelude.{◌≡◌};
ghost use Rattle.paper.specs.Lines.{tables};
ghost use Rattle.paper.specs.Area.{prepared};
ghost use Rattle.line_tables.specs.Laying.{Laying};
ghost use Rattle.line_tables.specs.Room.{room_of};

use line_lists::nodes_of_lines;
use nodes::place_nodes;
use room::lay_room;
use spread::spread;
use tables::Layout;
use words::section::fill;

// Lays the lines of an ordered map into the area, and sets the scratch to 0; answers how many lines there are.
pub fn lay_lines(b: &[u8], at: Layout, area: &mut [u16]) -> usize
    requires { Laying b.now area.old at (room_of at) }
    ensures { (result ≡ (tables b.now).count) × (area.new ≡ prepared b.now area.old) }
{
    let room = lay_room(at);
    spread(b, at, area, room);
    let count = place_nodes(b, at, area, room);
    nodes_of_lines(
        area,
        at.sizes.nodes,
        count,
        at.sizes.links + count,
        at.order,
        at.begins,
        at.lines,
        at.starts,
        at.along,
    );
    fill(area, at.scratch, at.end - at.scratch, 0);
    area[0] = count as u16;
    count
}
