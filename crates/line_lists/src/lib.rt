// Translated from src/algorithms/convex/line_convex_checker.rs of portgraph (88172a3c8e, Apache-2.0, see NOTICE), and changed: the nodes
// of all lines are one section of the lent area, sized by counting, and a cursor for each line stands for its vector's length.
#![tactic(auto)]

ghost use Rattle.std.specs.Prelude.{◌≡◌, take, drop};
ghost use mathlib.Core.List.{flatten};
ghost use Rattle.std.proofs.lemmas.List.Edits.{sets};
ghost use Rattle.paper.specs.Area.{starts};
ghost use Rattle.line_lists.specs.Columns.{Transposing, columns_in, row_in};
ghost use Rattle.line_lists.specs.Pushing.{AllPushing, RowPushing, all_pushed, row_pushed};

use counting_sort::{accumulate, tally};
use words::section::fill;

// Pushes node v on each line of its row (the Rust's `lines[line_index].push(node)`).
fn push_node(
    area: &mut [u16],
    node_starts: usize,
    lines: usize,
    cursors: usize,
    nodes: usize,
    v: usize,
)
    requires { RowPushing area.old node_starts lines cursors nodes v }
    ensures { area.new ≡ row_pushed area.old cursors nodes v (row_in area.old node_starts lines v) }
{
    let start = usize::from(area[node_starts + v]);
    let end = usize::from(area[node_starts + (v + 1)]);
    for e in start..end {
        let q = cursors + usize::from(area[lines + e]);
        let spot = area[q];
        area[nodes + usize::from(spot)] = v as u16;
        area[q] = spot + 1;
    }
}

// Pushes the n nodes at `order`, the first first, so that each line has them in the order's order.
fn push_nodes(
    area: &mut [u16],
    n: usize,
    order: usize,
    node_starts: usize,
    lines: usize,
    cursors: usize,
    nodes: usize,
)
    requires { AllPushing area.old n order node_starts lines cursors nodes }
    ensures { area.new
        ≡ all_pushed area.old cursors nodes (row_in area.old node_starts lines) (take n (drop order area.old)) }
{
    for t in 0..n {
        let v = usize::from(area[order + t]);
        push_node(area, node_starts, lines, cursors, nodes, v);
    }
}

// Lists the nodes of each of k lines, in the order's order, from the lines of each of n nodes: where each line starts goes to
// `line_starts`, the nodes to `nodes`. While nodes are pushed, the word after a line's start is its cursor: it ends as the next start.
pub fn nodes_of_lines(
    area: &mut [u16],
    n: usize,
    k: usize,
    entries: usize,
    order: usize,
    node_starts: usize,
    lines: usize,
    line_starts: usize,
    nodes: usize,
)
    requires { Transposing area.old n k entries order node_starts lines line_starts nodes }
    ensures { area.new
        ≡ sets (sets area.old line_starts (starts 0 (columns_in area.old n k order node_starts lines)))
        nodes (flatten (columns_in area.old n k order node_starts lines)) }
{
    fill(area, line_starts, k + 1, 0);
    tally(area, lines, entries, line_starts + 1, k);
    accumulate(area, line_starts + 1, k);
    push_nodes(area, n, order, node_starts, lines, line_starts + 1, nodes);
}
