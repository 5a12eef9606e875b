// Translated from src/algorithms/convex/line_convex_checker.rs of portgraph (88172a3c8e, Apache-2.0, see NOTICE), and changed:
// `try_extend_intervals` refuses what 01 refuses, and works in a room of its own, so that no backup is put back.
ghost use Rattle.std.specs.Prelude.{[], ◌∷◌, ◌+◌, ◌*◌, ◌≤◌, length};
ghost use Rattle.paper.specs.Calls.{needed, said, words_of};
ghost use Rattle.paper.specs.Records.{extend as extended, records_in};
ghost use Rattle.paper.specs.Refusals.{rule9, rule11, rule12, rule13, whole_records};
ghost use Rattle.answers.specs.Said.{written_said};
ghost use Rattle.tables.specs.Answered.{AnsweredInto};
ghost use Rattle.tables.specs.Usable.{Usable};
ghost use Rattle.line_checker.specs.InRoom.{InRoom};

use super::room::{copy_out, record_room};
use extension::extend;
use records::check_records;
use records::layout::lay_slots;
use refusals::Refusal;
use tables::Layout;

// Extends records by a node, in a room: refusals 9, 12, 13.
pub fn find_extended(
    b: &[u8],
    at: Layout,
    area: &mut [u16],
    records: &[u16],
    count: usize,
    node: usize,
    room: &mut [u16],
) -> Result<Option<usize>, Refusal>
    requires usable { Usable b.now area.old at }
    requires links_in_bounds { 3 * (at.sizes.nodes + at.sizes.links) ≤ length room.old }
    ensures { InRoom said words_of at area.old area.new (written_said result)
        (rule9 b.now (node ∷ []) ∷ rule12 b.now area.old records.now count
        ∷ rule13 b.now area.old (records_in records.now count) ∷ [])
        (extended b.now area.old (records_in records.now count) node) room.new }
{
    if at.sizes.nodes <= node {
        return Err(Refusal::Unknown(0));
    }
    let slots = lay_slots(at);
    check_records(b, at, area, slots, records, count)?;
    Ok(extend(b, at, area, slots, records, count, node, room))
}

// Extends records by a node, in their own buffer: refusals 9, 12, 13, then 11.
pub fn extend_records(
    b: &[u8],
    at: Layout,
    area: &mut [u16],
    records: &mut [u16],
    count: usize,
    node: usize,
) -> Result<Option<usize>, Refusal>
    requires { Usable b.now area.old at }
    ensures { AnsweredInto at area.old area.new (written_said result)
        (rule9 b.now (node ∷ []) ∷ rule12 b.now area.old records.old count
        ∷ rule13 b.now area.old (records_in records.old count)
        ∷ rule11 (whole_records records.old)
        (needed (extended b.now area.old (records_in records.old count) node)) ∷ [])
        (said (extended b.now area.old (records_in records.old count) node))
        records.old records.new
        (words_of (extended b.now area.old (records_in records.old count) node)) }
{
    let mut room = record_room();
    let Some(made) = find_extended(b, at, area, records, count, node, &mut room)? else {
        return Ok(None);
    };
    if records.len() / 3 < made {
        return Err(Refusal::TooLong(made));
    }
    copy_out(&room, records, 3 * made);
    Ok(Some(made))
}
