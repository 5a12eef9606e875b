// Where the scratch holds the small map, behind the list of nodes.
ghost use Rattle.std.specs.Prelude.{◌+◌, ◌≤◌};
ghost use Rattle.tables.specs.Placed.{scratch_size};
ghost use Rattle.intervals.specs.Holds.{MapFits};

use tables::Layout;

// For each of the lines that an area may have a slot, which tells its record, and then for each how often it was added.
#[derive(Clone, Copy)]
pub struct MapRoom {
    pub lines: usize,
    pub slots: usize,
    pub counts: usize,
}

// Lays slots and counts out in the scratch, behind a word for each node.
pub fn lay_map(at: Layout) -> MapRoom
    requires { at.scratch + scratch_size at.sizes ≤ 65536 }
    ensures { MapFits at result }
{
    let lines = at.sizes.nodes + at.sizes.links;
    let slots = at.scratch + at.sizes.nodes;
    let counts = slots + lines;
    MapRoom {
        lines,
        slots,
        counts,
    }
}
