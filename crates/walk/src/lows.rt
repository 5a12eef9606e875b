// Translated from src/algorithms/convex/line_convex_checker.rs of portgraph (88172a3c8e, Apache-2.0, see NOTICE), and changed: the lowest
// positions of the records stand by line, so that a node asks once for each of its lines.
ghost use Rattle.std.specs.Prelude.{◌≡◌, ◌*◌, ◌≤◌, length};
ghost use Rattle.paper.specs.Walk.{M};
ghost use Rattle.paper.specs.Records.{records_in};
ghost use Rattle.walk.specs.Lows.{Lined, Asked, lows_laid, below_lows};

use tables::{Layout, entries};
use words::section::word_at;

// The largest of the records' lowest positions (the Rust's `max_start_pos`).
pub fn largest_lowest(records: &[u16], count: usize) -> usize
    requires { 3 * count ≤ length records.now }
    ensures { result ≡ M (records_in records.now count) }
{
    (0..count)
        .map(|i| usize::from(records[3 * i + 1]))
        .max()
        .unwrap_or(0)
}

// Stores the lowest position of each record at its line's place.
pub fn lay_lows(area: &mut [u16], lows: usize, records: &[u16], count: usize)
    requires { Lined area.old lows records.now count }
    ensures { area.new ≡ lows_laid area.old lows records.now count }
{
    for i in 0..count {
        area[lows + usize::from(records[3 * i])] = records[3 * i + 1];
    }
}

// Whether node v stands below the lowest position of a record on one of its lines: there is a path from an output to an input.
pub fn stands_below(area: &[u16], at: Layout, lows: usize, v: usize) -> bool
    requires { Asked area.now at lows v }
    ensures { result ≡ below_lows area.now at lows v }
{
    let lines = entries(area, at.begins, at.lines, v);
    let pos = word_at(area, at.positions, v);
    lines
        .iter()
        .any(|line| pos < word_at(area, lows, usize::from(*line)))
}
