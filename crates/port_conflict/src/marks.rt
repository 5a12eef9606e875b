// Lists of ports as marks: refusal 14, and a word for each port that is 1 if the port is listed.
ghost use Rattle.std.specs.Prelude.{◌+◌, ◌≤◌, length};
ghost use Rattle.refusals.specs.Said.{ruling_of};
ghost use Rattle.tables.specs.Placed.{scratch_size};
ghost use Rattle.port_conflict.specs.Marks.{ListMarked, ListsMarked, PortMarked};
ghost use Rattle.port_conflict.specs.Room.{Fits};

use super::room::PortRoom;
use refusals::Refusal;
use tables::Layout;
use words::entries::Entries;
use words::section::fill;

// Marks a port of a map of p ports: whether there is such a port.
pub fn mark_port(area: &mut [u16], marks: usize, p: usize, port: usize) -> bool
    requires { marks + p ≤ length area.old }
    ensures { PortMarked area.old area.new marks p port result }
{
    if port >= p {
        return false;
    }
    area[marks + port] = 1;
    true
}

// Marks a list of ports, and no other port, or refuses its first unknown one.
pub fn mark_ports<E: Entries + Copy>(
    area: &mut [u16],
    marks: usize,
    p: usize,
    ports: E,
) -> Result<(), Refusal>
    requires { marks + p ≤ length area.old }
    ensures { ListMarked area.old area.new marks p (E.entries ports) (ruling_of result) }
{
    fill(area, marks, p, 0);
    for i in 0..ports.count() {
        if !mark_port(area, marks, p, usize::from(ports.entry(i))) {
            return Err(Refusal::UnknownPort(i));
        }
    }
    Ok(())
}

// Marks both lists, each in its own marks; an unknown input comes before an unknown output.
pub fn mark_lists<E: Entries + Copy>(
    at: Layout,
    area: &mut [u16],
    room: PortRoom,
    inputs: E,
    outputs: E,
) -> Result<(), Refusal>
    requires fits { Fits at room }
    requires sizes_in_bounds { at.scratch + scratch_size at.sizes ≤ length area.old }
    ensures { ListsMarked at room area.old area.new (E.entries inputs) (E.entries outputs) (ruling_of result) }
{
    mark_ports(area, room.inputs, at.sizes.ports, inputs)?;
    mark_ports(area, room.outputs, at.sizes.ports, outputs)
}
