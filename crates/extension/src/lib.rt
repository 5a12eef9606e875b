// Translated from src/algorithms/convex/line_convex_checker.rs of portgraph (88172a3c8e, Apache-2.0, see NOTICE), and changed:
// `try_extend_intervals` works on a copy in a room of its own, where the source keeps a backup, and finds a line's record by its slot.
#![tactic(auto)]

pub mod grow;

ghost use Rattle.std.specs.Prelude.{◌+◌, ◌*◌, ◌≤◌, ◌<◌, length};
ghost use Rattle.paper.specs.Area.{K};
ghost use Rattle.tables.specs.Usable.{Usable};
ghost use Rattle.tables.specs.Recorded.{Recorded, Slotted};
ghost use Rattle.records.specs.Slots.{SlotsFit};
ghost use Rattle.extension.specs.Extended.{ExtendsTo};
ghost use Rattle.extension.specs.Room.{Copied, LineExtended, LineReady, LinesExtended, LinesReady};

use grow::{grow_record, put_record};
use records::layout::LineSlots;
use tables::{Layout, entries};
use words::section::word_at;

// Copies the first `taken` words into the room.
fn copy_words(words: &[u16], taken: usize, room: &mut [u16])
    requires { (taken ≤ length words.now) × (taken ≤ length room.old) }
    ensures { Copied words.now taken room.old room.new }
{
    room[..taken].copy_from_slice(&words[..taken]);
}

// Extends the `made` records in the room on line x: its own grows, given the part of the area with the line's nodes, or a new one comes last.
// Answers how many there are then, or none where they cannot be extended.
fn extend_line(
    b: &[u8],
    at: Layout,
    area: &[u16],
    slots: LineSlots,
    room: &mut [u16],
    made: usize,
    pos: usize,
    x: usize,
) -> Option<usize>
    requires usable { Usable b.now area.now at }
    requires slots_fit { SlotsFit at slots }
    requires line_ready { LineReady b.now area.now at slots room.old made pos x }
    ensures { LineExtended b.now area.now room.old made pos x result room.new }
{
    if word_at(area, slots.marks, x) == 0 {
        put_record(room, made, x, pos, pos);
        return Some(made + 1);
    }
    let slot = word_at(area, slots.numbers, x);
    let nodes = entries(area, at.starts, at.along, x);
    let first = at.positions;
    let end = first + at.sizes.nodes;
    if !grow_record(nodes, &area[first..end], room, slot, pos) {
        return None;
    }
    Some(made)
}

// Extends the records in the room on each of a node's lines. They are distinct, so no slot has to be set for a new record.
fn extend_lines(
    b: &[u8],
    at: Layout,
    area: &[u16],
    slots: LineSlots,
    lines: &[u16],
    room: &mut [u16],
    count: usize,
    pos: usize,
) -> Option<usize>
    requires usable { Usable b.now area.now at }
    requires slots_fit { SlotsFit at slots }
    requires lines_ready { LinesReady b.now area.now at slots lines.now room.old count pos }
    ensures { LinesExtended b.now area.now lines.now room.old count pos result room.new }
{
    let mut made = count;
    for x in lines {
        made = extend_line(b, at, area, slots, room, made, pos, usize::from(*x))?;
    }
    Some(made)
}

// Extends `count` records by node v, in the room, so that "not extendable" leaves them unchanged. Answers how many there are then, or none.
pub fn extend(
    b: &[u8],
    at: Layout,
    area: &[u16],
    slots: LineSlots,
    words: &[u16],
    count: usize,
    v: usize,
    room: &mut [u16],
) -> Option<usize>
    requires usable { Usable b.now area.now at }
    requires slots_fit { SlotsFit at slots }
    requires recorded { Recorded b.now area.now words.now count }
    requires slotted { Slotted area.now words.now count slots.numbers slots.marks (K b.now area.now) }
    requires v_lt_nodes { (v < at.sizes.nodes) × (3 * (at.sizes.nodes + at.sizes.links) ≤ length room.old) }
    ensures { ExtendsTo b.now area.now words.now count v room.old result room.new }
{
    copy_words(words, 3 * count, room);
    let lines = entries(area, at.begins, at.lines, v);
    let pos = word_at(area, at.positions, v);
    extend_lines(b, at, area, slots, lines, room, count, pos)
}
