// Translated from src/algorithms/convex/line_convex_checker.rs of portgraph (88172a3c8e, Apache-2.0, see NOTICE), and changed: the queue, the
// visited nodes and the records by line stand in the lent area, and the answer carries its count.
#![tactic(auto)]

pub mod links;
pub mod lows;
pub mod queue;
pub mod starts;
pub mod turns;

ghost use Rattle.tables.specs.Usable.{Usable};
ghost use Rattle.tables.specs.Recorded.{Recorded};
ghost use Rattle.walk.specs.Walks.{Walks};

use answers::Verdict;
use starts::{lay, start};
use tables::Layout;
use turns::turns;

// Whether no path leads from an end of a record to the start of one (the Rust's `is_convex_by_intervals`), with how many nodes were looked at.
pub fn walk(b: &[u8], at: Layout, area: &mut [u16], records: &[u16], count: usize) -> Verdict
    requires usable { Usable b.now area.old at }
    requires recorded { Recorded b.now area.old records.now count }
    ensures { Walks b.now area.old records.now count at result area.new }
{
    let room = lay(b, at, area, records, count);
    let joined = start(b, at, area, room, records, count);
    turns(b, at, area, room, records, count, joined)
}
