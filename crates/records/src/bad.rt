// One record held against the tables and against the records before it: refusal 12.
ghost use Rattle.std.specs.Prelude.{◌≡◌, ◌+◌, ◌*◌, ◌<◌, length};
ghost use Rattle.paper.specs.Area.{K};
ghost use Rattle.paper.specs.Refusals.{bad_record, on_line};
ghost use Rattle.tables.specs.Usable.{Usable};
ghost use Rattle.records.specs.Slots.{SlotsFit};
ghost use Rattle.records.specs.Tested.{Passed, RecordTested};

use crate::layout::LineSlots;
use on_line::index_on;
use tables::Layout;
use words::section::word_at;

// Whether a node of line x stands at a position.
fn stands_on(b: &[u8], at: Layout, area: &[u16], x: usize, pos: usize) -> bool
    requires usable { Usable b.now area.now at }
    requires x_bound { x < K b.now area.now }
    ensures { result ≡ on_line b.now area.now x pos }
{
    index_on(area, at, x, pos).is_some()
}

// Whether record i is bad, where the records before it are good and their lines are marked.
fn is_bad(b: &[u8], at: Layout, area: &[u16], slots: LineSlots, words: &[u16], i: usize) -> bool
    requires usable { Usable b.now area.now at }
    requires slots_fit { SlotsFit at slots }
    requires passed { Passed b.now area.now slots words.now i }
    requires i_in_bounds { 3 * i + 2 < length words.now }
    ensures { result ≡ bad_record b.now area.now words.now i }
{
    let first = 3 * i;
    let line = usize::from(words[first]);
    let lowest = word_at(words, first, 1);
    let highest = word_at(words, first, 2);
    if line >= usize::from(area[0]) {
        return true;
    }
    if word_at(area, slots.marks, line) != 0 {
        return true;
    }
    if !stands_on(b, at, area, line, lowest) {
        return true;
    }
    if !stands_on(b, at, area, line, highest) {
        return true;
    }
    highest < lowest
}

// Whether record i is good; if it is, its line gets a mark, and the record's number in its slot.
pub fn check_record(
    b: &[u8],
    at: Layout,
    area: &mut [u16],
    slots: LineSlots,
    words: &[u16],
    i: usize,
) -> bool
    requires usable { Usable b.now area.old at }
    requires slots_fit { SlotsFit at slots }
    requires passed { Passed b.now area.old slots words.now i }
    requires i_in_bounds { 3 * i + 2 < length words.now }
    ensures { RecordTested b.now area.old at slots words.now i result area.new }
{
    if is_bad(b, at, area, slots, words, i) {
        return false;
    }
    let line = usize::from(words[3 * i]);
    area[slots.numbers + line] = i as u16;
    area[slots.marks + line] = 1;
    true
}
