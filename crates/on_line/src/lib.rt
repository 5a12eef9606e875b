// A line of the area: where a position stands on it, and which node comes next. The line's nodes are handed on as a part of the area.
#![tactic(auto)]

ghost use Rattle.std.specs.Prelude.{◌≡◌, true};
ghost use Rattle.lists.specs.Found.{found_of};
ghost use Rattle.lists.specs.Lists.{member};
ghost use Rattle.paper.specs.Lookup.{lookup};
ghost use Rattle.on_line.specs.Along.{LineAt, positions_along, next_along};

use lookup::{find_index, next_after};
use tables::{Layout, entries};

// The index at which a position stands on line x.
pub fn index_on(area: &[u16], at: Layout, x: usize, pos: usize) -> Option<usize>
    requires { LineAt area.now at x }
    ensures { found_of result ≡ lookup (positions_along area.now at x) pos }
{
    let nodes = entries(area, at.starts, at.along, x);
    let first = at.positions;
    let end = first + at.sizes.nodes;
    find_index(nodes, &area[first..end], pos)
}

// The node that comes after the one at a position on line x.
pub fn next_on(area: &[u16], at: Layout, x: usize, pos: usize) -> Option<usize>
    requires line_at { LineAt area.now at x }
    requires x_value { member pos (positions_along area.now at x) ≡ true }
    ensures { found_of result ≡ next_along area.now at x pos }
{
    let nodes = entries(area, at.starts, at.along, x);
    let first = at.positions;
    let end = first + at.sizes.nodes;
    next_after(nodes, &area[first..end], pos)
}
