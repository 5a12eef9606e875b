// Records in a caller's words: refusals 12 and 13, and which nodes lie inside them.
#![tactic(auto)]

pub mod bad;
pub mod inside;
pub mod layout;

ghost use Rattle.std.specs.Prelude.{◌≡◌, ℕ, ◌*◌, ◌≤◌, ◌<◌, length};
ghost use Rattle.lists.specs.Found.{first};
ghost use Rattle.paper.specs.Refusals.{refuse};
ghost use Rattle.refusals.specs.Said.{ruling_of};
ghost use Rattle.tables.specs.Usable.{Usable};
ghost use Rattle.records.specs.Slots.{NodeAt, SlotsFit, straddles_here};
ghost use Rattle.records.specs.Tested.{AllTested, Tested};

use bad::check_record;
use inside::straddles;
use layout::LineSlots;
use refusals::Refusal;
use tables::Layout;
use words::section::fill;

// Tests the records one by one until one is bad: refusal 12. Each line of a good one gets a mark, and the record's number in its slot.
fn slot_records(
    b: &[u8],
    at: Layout,
    area: &mut [u16],
    slots: LineSlots,
    words: &[u16],
    count: usize,
) -> Result<(), Refusal>
    requires usable { Usable b.now area.old at }
    requires slots_fit { SlotsFit at slots }
    requires count_in_bounds { 3 * count ≤ length words.now }
    ensures { AllTested b.now area.old at slots words.now count result area.new }
{
    fill(area, slots.marks, at.sizes.nodes + at.sizes.links, 0);
    for i in 0..count {
        if !check_record(b, at, area, slots, words, i) {
            return Err(Refusal::BadRecord(i));
        }
    }
    Ok(())
}

// Looks for the lowest node that is inside on one line and outside on another: refusal 13.
fn find_straddling(area: &[u16], at: Layout, slots: LineSlots, words: &[u16]) -> Result<(), Refusal>
    requires { (v : ℕ) → v < at.sizes.nodes → NodeAt area.now words.now at slots v }
    ensures { ruling_of result ≡ refuse 13 (first (straddles_here area.now words.now at slots) at.sizes.nodes) }
{
    for v in 0..at.sizes.nodes {
        if straddles(area, at, slots, words, v) {
            return Err(Refusal::Straddling(v));
        }
    }
    Ok(())
}

// Tests `count` records by 12 and 13. A count beyond the buffer is refused before any record is read.
pub fn check_records(
    b: &[u8],
    at: Layout,
    area: &mut [u16],
    slots: LineSlots,
    words: &[u16],
    count: usize,
) -> Result<(), Refusal>
    requires usable { Usable b.now area.old at }
    requires slots_fit { SlotsFit at slots }
    ensures { Tested b.now area.old at slots words.now count result area.new }
{
    let whole = words.len() / 3;
    if whole < count {
        return Err(Refusal::BadRecord(whole));
    }
    slot_records(b, at, area, slots, words, count)?;
    find_straddling(area, at, slots, words)
}
