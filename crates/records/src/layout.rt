// Where the scratch tells which record is a line's.
ghost use Rattle.std.specs.Prelude.{◌+◌, ◌≤◌};
ghost use Rattle.tables.specs.Placed.{scratch_size};
ghost use Rattle.records.specs.Slots.{SlotsFit};

use tables::Layout;

// A slot for each line, which holds the number of its record, and then a mark for each line, which says that it has one.
#[derive(Clone, Copy)]
pub struct LineSlots {
    pub numbers: usize,
    pub marks: usize,
}

// Lays slots and marks out in the scratch.
pub fn lay_slots(at: Layout) -> LineSlots
    requires { at.scratch + scratch_size at.sizes ≤ 65536 }
    ensures { SlotsFit at result }
{
    let numbers = at.scratch;
    let marks = numbers + (at.sizes.nodes + at.sizes.links);
    LineSlots { numbers, marks }
}
