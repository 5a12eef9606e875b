// The intervals of a list of nodes: collected one position at a time, and tested line by line.
#![tactic(auto)]

pub mod collect;
pub mod filling;
pub mod layout;

ghost use Rattle.std.specs.Prelude.{◌+◌, ◌*◌, ◌≤◌, length};
ghost use Rattle.tables.specs.Usable.{Usable};
ghost use Rattle.take_in.specs.Listed.{Listed};
ghost use Rattle.intervals.specs.Answer.{Collected};

use collect::add_nodes;
use filling::all_filled;
use layout::lay_map;
use tables::Layout;
use words::section::fill;

// The intervals of the `count` nodes that stand in the scratch's first words, each once (the Rust's `get_intervals_from_nodes`): how many records
// were written, or none where the nodes are not contiguous.
pub fn get_intervals(
    b: &[u8],
    at: Layout,
    area: &mut [u16],
    count: usize,
    records: &mut [u16],
) -> Option<usize>
    requires usable { Usable b.now area.old at }
    requires listed { Listed area.old at count }
    requires links_in_bounds { 3 * (at.sizes.nodes + at.sizes.links) ≤ length records.old }
    ensures { Collected b.now area.old at count records.old result records.new area.new }
{
    let room = lay_map(at);
    fill(area, room.counts, room.lines, 0);
    let made = add_nodes(at, room, area, records, count);
    if !all_filled(area, at, room, records, made) {
        return None;
    }
    Some(made)
}
