// Where the check of two lists of ports writes, at the start of the scratch.
ghost use Rattle.std.specs.Prelude.{◌+◌, ◌≤◌};
ghost use Rattle.tables.specs.Placed.{scratch_size};
ghost use Rattle.port_conflict.specs.Room.{Fits};

use tables::Layout;

// The nodes' first ports, a mark for each port that says whether it is a listed input, and one that says whether it is a listed output.
#[derive(Clone, Copy)]
pub struct PortRoom {
    pub firsts: usize,
    pub inputs: usize,
    pub outputs: usize,
}

// Lays them out, one behind the other.
pub fn lay_room(at: Layout) -> PortRoom
    requires { at.scratch + scratch_size at.sizes ≤ at.end }
    ensures { Fits at result }
{
    let firsts = at.scratch;
    let inputs = firsts + (at.sizes.nodes + 1);
    let outputs = inputs + at.sizes.ports;
    PortRoom {
        firsts,
        inputs,
        outputs,
    }
}
