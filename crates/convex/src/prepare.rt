// Translated from src/algorithms/convex/line_convex_checker.rs of portgraph (88172a3c8e, Apache-2.0, see NOTICE), and changed: `new`
// refuses what 01 refuses, and leaves its tables in a lent area.
ghost use Rattle.std.specs.Prelude.{◌≡◌};
ghost use Rattle.paper.specs.Calls.{prepare};
ghost use Rattle.refusals.specs.Said.{answer_of};

use line_tables::lay_lines;
use refusals::Refusal;
use toposort::ordering::order_map;

// Prepares an area for any map (the Rust's `LineConvexChecker::new`): refusals 1 to 6 in their order, or the tables of the map's lines.
pub fn prepare(map: &[u8], area: &mut [u16]) -> Result<usize, Refusal>
    ensures { record { answer = answer_of result; area = area.new } ≡ prepare map.now area.old }
{
    let at = order_map(map, area)?.at;
    Ok(lay_lines(map, at, area))
}
