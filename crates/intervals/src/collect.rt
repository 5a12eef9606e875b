// Translated from src/algorithms/convex/line_convex_checker.rs of portgraph (88172a3c8e, Apache-2.0, see NOTICE), and changed: the small
// map's intervals are records in a lent buffer, and a line's record and count stand in scratch by line.
ghost use Rattle.std.specs.Prelude.{◌≡◌, ◌+◌, ◌*◌, ◌≤◌, length};
ghost use Rattle.paper.specs.Records.{record_at};
ghost use Rattle.accepted_theory.specs.collecting.SmallMap.{add};
ghost use Rattle.take_in.specs.Listed.{list_in};
ghost use Rattle.intervals.specs.Holds.{Adding, AddingNode, AddingNodes, Became, add_words, add_words_of, interval_of, put_record, widened_to};

use crate::layout::MapRoom;
use tables::Layout;
use words::section::word_at;

// Stores a record as the i-th: line, lowest and highest position.
fn put_record(records: &mut [u16], i: usize, line: u16, low: u16, high: u16)
    requires { 3 * i + 3 ≤ length records.old }
    ensures { records.new ≡ put_record records.old i (interval_of line low high) }
{
    records[3 * i] = line;
    records[3 * i + 1] = low;
    records[3 * i + 2] = high;
}

// Widens the i-th record to a position.
fn widen(records: &mut [u16], i: usize, pos: u16)
    requires { 3 * i + 3 ≤ length records.old }
    ensures { records.new ≡ put_record records.old i (widened_to pos (record_at records.old i)) }
{
    let line = records[3 * i];
    let low = pos.min(records[3 * i + 1]);
    let high = pos.max(records[3 * i + 2]);
    put_record(records, i, line, low, high);
}

// Adds a position to the interval on a line (the Rust's `small_map_add`): widens the line's record, or makes one after the `made`
// that stand. Answers how many stand then. A count of 0 says that the line has no record yet.
fn small_map_add(
    room: MapRoom,
    area: &mut [u16],
    records: &mut [u16],
    made: usize,
    line: usize,
    pos: u16,
) -> usize
    requires { Adding room area.old records.old made line }
    ensures { Became (add pos line) room area.old records.old made area.new records.new result }
{
    let spot = room.counts + line;
    let seen = area[spot];
    area[spot] = seen + 1;
    if seen == 0 {
        area[room.slots + line] = made as u16;
        put_record(records, made, line as u16, pos, pos);
        return made + 1;
    }
    let i = word_at(area, room.slots, line);
    widen(records, i, pos);
    made
}

// Adds a node's position to each of its lines.
fn add_node(
    at: Layout,
    room: MapRoom,
    area: &mut [u16],
    records: &mut [u16],
    made: usize,
    v: usize,
) -> usize
    requires { AddingNode at room area.old records.old made v }
    ensures { Became (add_words_of area.old at v) room
        area.old records.old made area.new records.new result }
{
    let pos = area[at.positions + v];
    let from = word_at(area, at.begins, v);
    let to = word_at(area, at.begins, v + 1);
    let mut stand = made;
    for e in from..to {
        let line = word_at(area, at.lines, e);
        stand = small_map_add(room, area, records, stand, line, pos);
    }
    stand
}

// Adds the positions of the list's nodes, which stand in the scratch's first words. Answers how many records were made.
pub fn add_nodes(
    at: Layout,
    room: MapRoom,
    area: &mut [u16],
    records: &mut [u16],
    count: usize,
) -> usize
    requires { AddingNodes at room area.old records.old count }
    ensures { Became (add_words area.old at (list_in area.old at count)) room
        area.old records.old 0 area.new records.new result }
{
    let mut stand = 0;
    for i in 0..count {
        let v = word_at(area, at.scratch, i);
        stand = add_node(at, room, area, records, stand, v);
    }
    stand
}
