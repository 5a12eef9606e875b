// What the lines are laid with, in the scratch: where each part of it stands.
ghost use Rattle.std.specs.Prelude.{◌≡◌, ◌+◌, ◌≤◌};
ghost use Rattle.tables.specs.Placed.{scratch_size};
ghost use Rattle.line_tables.specs.Room.{Fits, room_of};

use tables::Layout;

// The nodes' first ports, the output port of each link, the top of each port's stack, the links by output port, where each node's
// outgoing links start, where each input port's link starts, the links by input port, and the stacks. The ports, the tops and the links
// by output port stand where ordering left its keys, starts and links.
#[derive(Clone, Copy)]
pub struct Room {
    pub firsts: usize,
    pub ports: usize,
    pub tops: usize,
    pub out_sorted: usize,
    pub outs: usize,
    pub in_starts: usize,
    pub in_sorted: usize,
    pub stack: usize,
}

// Lays them out, one behind the other.
pub fn lay_room(at: Layout) -> Room
    requires { at.scratch + scratch_size at.sizes ≤ at.end }
    ensures { (result ≡ room_of at) × Fits at result }
{
    let firsts = at.scratch;
    let ports = firsts + (at.sizes.nodes + 1);
    let tops = ports + at.sizes.links;
    let out_sorted = tops + (at.sizes.ports + 1);
    let outs = out_sorted + at.sizes.links;
    let in_starts = outs + (at.sizes.nodes + 1);
    let in_sorted = in_starts + (at.sizes.ports + 1);
    let stack = in_sorted + at.sizes.links;
    Room {
        firsts,
        ports,
        tops,
        out_sorted,
        outs,
        in_starts,
        in_sorted,
        stack,
    }
}
