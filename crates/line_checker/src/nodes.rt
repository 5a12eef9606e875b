// Translated from src/algorithms/convex/line_convex_checker.rs of portgraph (88172a3c8e, Apache-2.0, see NOTICE), and changed:
// `nodes_in_intervals` refuses what 01 refuses, and writes the nodes to a lent buffer.
ghost use Rattle.std.specs.Prelude.{[], ◌∷◌, ◌≤◌, length};
ghost use Rattle.paper.specs.Records.{nodes_in, records_in};
ghost use Rattle.paper.specs.Refusals.{rule11, rule12, rule13};
ghost use Rattle.refusals.specs.Said.{answer_of};
ghost use Rattle.tables.specs.Answered.{AnsweredInto};
ghost use Rattle.tables.specs.Usable.{Usable};
ghost use Rattle.line_checker.specs.InRoom.{InRoom, itself};

use super::room::{copy_out, node_room};
use nodes_in::nodes_in;
use records::check_records;
use records::layout::lay_slots;
use refusals::Refusal;
use tables::Layout;

// The nodes in records, by position, then number, in a room: refusals 12, 13.
pub fn find_nodes(
    b: &[u8],
    at: Layout,
    area: &mut [u16],
    records: &[u16],
    count: usize,
    room: &mut [u16],
) -> Result<usize, Refusal>
    requires usable { Usable b.now area.old at }
    requires in_bounds { 1793 ≤ length room.old }
    ensures { InRoom length itself at area.old area.new (answer_of result)
        (rule12 b.now area.old records.now count
        ∷ rule13 b.now area.old (records_in records.now count) ∷ [])
        (nodes_in b.now area.old (records_in records.now count)) room.new }
{
    let slots = lay_slots(at);
    check_records(b, at, area, slots, records, count)?;
    Ok(nodes_in(b, at, area, slots, records, count, room))
}

// The nodes in records: refusals 12, 13, 11.
pub fn nodes_of_records(
    b: &[u8],
    at: Layout,
    area: &mut [u16],
    records: &[u16],
    count: usize,
    buffer: &mut [u16],
) -> Result<usize, Refusal>
    requires { Usable b.now area.old at }
    ensures { AnsweredInto at area.old area.new (answer_of result)
        (rule12 b.now area.old records.now count
        ∷ rule13 b.now area.old (records_in records.now count)
        ∷ rule11 (length buffer.old) (length (nodes_in b.now area.old (records_in records.now count))) ∷ [])
        (length (nodes_in b.now area.old (records_in records.now count)))
        buffer.old buffer.new
        (nodes_in b.now area.old (records_in records.now count)) }
{
    let mut room = node_room();
    let made = find_nodes(b, at, area, records, count, &mut room)?;
    if buffer.len() < made {
        return Err(Refusal::TooLong(made));
    }
    copy_out(&room, buffer, made);
    Ok(made)
}
