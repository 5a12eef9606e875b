// Translated from src/algorithms/convex/line_convex_checker.rs of portgraph (88172a3c8e, Apache-2.0, see NOTICE), and changed: `find_index`
// takes a line as the part of an area that holds its nodes, its loop is a function of its own, and the loop returns where the source's has no end.
#![tactic(auto)]

pub mod guess;

ghost use Rattle.std.specs.Prelude.{◌≡◌, ◌-◌, ◌<◌, true, length, nat_lt, slice_index};
ghost use Rattle.lists.specs.Lists.{keep, member};
ghost use Rattle.lists.specs.Found.{found_of, front};
ghost use Rattle.paper.specs.Lookup.{lookup};
ghost use Rattle.lookup.specs.Line.{Bracketed, Line, positions_on};

use guess::guess;

// The position of a line's node at an index.
pub fn position_at(nodes: &[u16], positions: &[u16], i: usize) -> usize
    requires line { Line nodes.now positions.now }
    requires i_in_bounds { i < length nodes.now }
    ensures value { result ≡ slice_index (positions_on nodes.now positions.now) i }
    ensures upper_bound { result < 65536 }
{
    usize::from(positions[usize::from(nodes[i])])
}

// The index of a position that lies strictly between those of the line's ends (the loop of `find_index`). Once the ends are next to each
// other nothing stands between them.
fn find_between(nodes: &[u16], positions: &[u16], pos: usize) -> Option<usize>
    requires line { Line nodes.now positions.now }
    requires bracketed { Bracketed nodes.now positions.now pos 0 (length nodes.now - 1) }
    ensures { found_of result ≡ lookup (positions_on nodes.now positions.now) pos }
{
    let mut low = 0;
    let mut high = nodes.len() - 1;
    // Either end moves to the middle, so no range counts the turns.
    while low + 1 < high {
        let left = position_at(nodes, positions, low);
        let right = position_at(nodes, positions, high);
        let middle = guess(low, high, left, right, pos);
        let there = position_at(nodes, positions, middle);
        if there == pos {
            return Some(middle);
        }
        if there < pos {
            low = middle;
        } else {
            high = middle;
        }
    }
    None
}

// The index at which a position stands on a line.
pub fn find_index(nodes: &[u16], positions: &[u16], pos: usize) -> Option<usize>
    requires { Line nodes.now positions.now }
    ensures { found_of result ≡ lookup (positions_on nodes.now positions.now) pos }
{
    if nodes.is_empty() {
        return None;
    }
    let last = nodes.len() - 1;
    let left = position_at(nodes, positions, 0);
    let right = position_at(nodes, positions, last);
    if left == pos {
        return Some(0);
    }
    if right == pos {
        return Some(last);
    }
    if left > pos {
        return None;
    }
    if right < pos {
        return None;
    }
    find_between(nodes, positions, pos)
}

// The node after the one at a position that stands on the line.
pub fn next_after(nodes: &[u16], positions: &[u16], pos: usize) -> Option<usize>
    requires line { Line nodes.now positions.now }
    requires positions_value { member pos (positions_on nodes.now positions.now) ≡ true }
    ensures { found_of result ≡ front (keep (λ v. nat_lt pos (slice_index positions.now v)) nodes.now) }
{
    let next = find_index(nodes, positions, pos)? + 1;
    if next < nodes.len() {
        return Some(usize::from(nodes[next]));
    }
    None
}
