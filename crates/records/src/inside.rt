// Which nodes lie inside given records: a line's mark says that it has a record, and its slot which.
ghost use Rattle.std.specs.Prelude.{◌≡◌, not};
ghost use Rattle.lists.specs.Lists.{any};
ghost use Rattle.records.specs.Slots.{NodeAt, SlotAt, SlotsAt, inside_here, inside_slot, straddles_here};

use crate::layout::LineSlots;
use tables::{Layout, entries};
use words::section::word_at;

// Whether a position on line x lies inside the line's record; a line with no record is outside.
pub fn inside_on(area: &[u16], slots: LineSlots, words: &[u16], x: usize, pos: usize) -> bool
    requires { SlotAt area.now words.now slots x }
    ensures { result ≡ inside_slot area.now words.now slots pos x }
{
    if word_at(area, slots.marks, x) == 0 {
        return false;
    }
    let first = 3 * word_at(area, slots.numbers, x);
    word_at(words, first, 1) <= pos && pos <= word_at(words, first, 2)
}

// Whether a position is inside on one of the lines.
fn inside_on_some(area: &[u16], slots: LineSlots, words: &[u16], lines: &[u16], pos: usize) -> bool
    requires { SlotsAt area.now words.now slots lines.now }
    ensures { result ≡ any (inside_slot area.now words.now slots pos) lines.now }
{
    lines
        .iter()
        .any(|x| inside_on(area, slots, words, usize::from(*x), pos))
}

// Whether a position is outside on one of the lines.
fn outside_on_some(area: &[u16], slots: LineSlots, words: &[u16], lines: &[u16], pos: usize) -> bool
    requires { SlotsAt area.now words.now slots lines.now }
    ensures { result ≡ any (λ x. not (inside_slot area.now words.now slots pos x)) lines.now }
{
    lines
        .iter()
        .any(|x| !inside_on(area, slots, words, usize::from(*x), pos))
}

// Whether node v lies inside the records on one of its lines.
pub fn inside(area: &[u16], at: Layout, slots: LineSlots, words: &[u16], v: usize) -> bool
    requires { NodeAt area.now words.now at slots v }
    ensures { result ≡ inside_here area.now words.now at slots v }
{
    let lines = entries(area, at.begins, at.lines, v);
    let pos = word_at(area, at.positions, v);
    inside_on_some(area, slots, words, lines, pos)
}

// Whether node v is inside on one line and outside on another.
pub fn straddles(area: &[u16], at: Layout, slots: LineSlots, words: &[u16], v: usize) -> bool
    requires { NodeAt area.now words.now at slots v }
    ensures { result ≡ straddles_here area.now words.now at slots v }
{
    let lines = entries(area, at.begins, at.lines, v);
    let pos = word_at(area, at.positions, v);
    inside_on_some(area, slots, words, lines, pos)
        && outside_on_some(area, slots, words, lines, pos)
}
