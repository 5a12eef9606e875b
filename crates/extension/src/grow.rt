// One record in a room, grown by one position: next below its lowest, next above its highest, or inside it. The nodes of the record's line
// are handed on as a part of the area.
ghost use Rattle.std.specs.Prelude.{◌≡◌, true, ◌+◌, ◌*◌, ◌<◌, length};
ghost use Rattle.lists.specs.Lists.{member};
ghost use Rattle.lists.specs.Found.{is_at};
ghost use Rattle.paper.specs.Records.{next_position};
ghost use Rattle.lookup.specs.Line.{Line, positions_on};
ghost use Rattle.extension.specs.Room.{Grew, Growing, Put, record_of};

use lookup::next_after;
use words::section::word_at;

// Writes record i: its line, its lowest and its highest position.
pub fn put_record(room: &mut [u16], i: usize, line: usize, lowest: usize, highest: usize)
    requires i_in_bounds { 3 * i + 2 < length room.old }
    requires line_bound { (line < 65536) × (lowest < 65536) × (highest < 65536) }
    ensures { Put room.old i (record_of line lowest highest) room.new }
{
    room[3 * i] = line as u16;
    room[3 * i + 1] = lowest as u16;
    room[3 * i + 2] = highest as u16;
}

// Whether the node that comes after a position on a line stands at position `next`.
fn comes_next(nodes: &[u16], positions: &[u16], pos: usize, next: usize) -> bool
    requires line { Line nodes.now positions.now }
    requires positions_value { member pos (positions_on nodes.now positions.now) ≡ true }
    ensures { result ≡ is_at next (next_position (positions_on nodes.now positions.now) pos) }
{
    let Some(node) = next_after(nodes, positions, pos) else {
        return false;
    };
    usize::from(positions[node]) == next
}

// Grows record i by a position of its line, if that lies inside it or next to it.
pub fn grow_record(nodes: &[u16], positions: &[u16], room: &mut [u16], i: usize, pos: usize) -> bool
    requires line { Line nodes.now positions.now }
    requires growing { Growing (positions_on nodes.now positions.now) room.old i pos }
    ensures { Grew (positions_on nodes.now positions.now) room.old i pos result room.new }
{
    let line = usize::from(room[3 * i]);
    let lowest = word_at(room, 3 * i, 1);
    let highest = word_at(room, 3 * i, 2);
    if pos < lowest {
        if !comes_next(nodes, positions, pos, lowest) {
            return false;
        }
        put_record(room, i, line, pos, highest);
        return true;
    }
    if highest < pos {
        if !comes_next(nodes, positions, highest, pos) {
            return false;
        }
        put_record(room, i, line, lowest, pos);
        return true;
    }
    true
}
