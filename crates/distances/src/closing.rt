// The first distance at which a step is linked to the list again, and the smallest listed step that it is linked to.
ghost use Rattle.std.specs.Prelude.{◌≡◌, [], ◌∷◌, ◌++◌, ◌+◌, ◌<◌, ◌≤◌, length};
ghost use Rattle.lists.specs.Found.{found_of, listed};
ghost use Rattle.lists.proofs.Sections.{part};
ghost use Rattle.paper.specs.Map.{out_neighbours};
ghost use Rattle.distances.specs.Met.{Met, listed_of, met_size};
ghost use Rattle.distances.specs.Reached.{Reached, Standing, queue_of, targets_in};
ghost use Rattle.distances.specs.Smallest.{smallest};
ghost use Rattle.distances.specs.Closed.{Closed};

use super::Search;
use super::queue::{Queue, at_distance};
use super::rounds::round;
use neighbours::{target_at, targets_start};
use words::section::word_at;

// The smaller of what was found and node v, if v is listed.
fn smaller_listed(area: &[u16], queue: Queue, v: usize, found: Option<usize>) -> Option<usize>
    requires queue_in_bounds { queue.start + met_size queue.nodes ≤ length area.now }
    requires v_lt_nodes { v < queue.nodes }
    ensures { found_of result ≡ smallest (listed (found_of found) ++ listed_of area.now queue (v ∷ [])) }
{
    if at_distance(area, queue, v, 0) {
        return Some(found.unwrap_or(v).min(v));
    }
    found
}

// The smallest of what was found and the listed steps that node v is linked to.
fn smallest_target(
    b: &[u8],
    at: Search,
    area: &[u16],
    v: usize,
    found: Option<usize>,
) -> Option<usize>
    requires standing { Standing b.now area.now at }
    requires v_lt_nodes { v < at.sizes.nodes }
    ensures { found_of result
        ≡ smallest (listed (found_of found) ++ listed_of area.now (queue_of at) (out_neighbours b.now v)) }
{
    let start = targets_start(b, at.sizes, area, at.links, v);
    let end = targets_start(b, at.sizes, area, at.links, v + 1);
    let queue = Queue {
        start: at.start,
        nodes: at.sizes.nodes,
    };
    let mut best = found;
    for i in start..end {
        let w = target_at(b, at.sizes, area, at.links, i);
        best = smaller_listed(area, queue, w, best);
    }
    best
}

// The smallest listed step that a node from place `from` up to place `to` is linked to.
fn smallest_end(b: &[u8], at: Search, area: &[u16], from: usize, to: usize) -> Option<usize>
    requires standing { Standing b.now area.now at }
    requires met { Met area.now (queue_of at) to }
    requires from_le_to { from ≤ to }
    ensures { found_of result
        ≡ smallest (listed_of area.now (queue_of at) (targets_in b.now area.now at.start from to)) }
{
    let mut best = None;
    for t in from..to {
        let v = word_at(area, at.start, t);
        best = smallest_target(b, at, area, v, best);
    }
    best
}

// Goes round by round until a step of the last one is linked to the list, or a round brings no step. Answers that step's distance, and the smallest listed
// step that it is linked to.
pub fn close(b: &[u8], at: Search, area: &mut [u16], count: usize) -> Option<(usize, usize)>
    requires standing { Standing b.now area.old at }
    requires reached { Reached b.now (part area.old at.start count) area.old (queue_of at) 0 count 0 }
    ensures { Closed b.now area.old (queue_of at) count result area.new }
{
    let mut d = 0;
    let mut from = 0;
    let mut to = count;
    // The bounds move: a round goes over what the one before let join, so no range counts the rounds.
    while from < to {
        let grown = round(b, at, area, from, to, d + 1);
        from = to;
        to = grown;
        d += 1;
        if let Some(w) = smallest_end(b, at, area, from, to) {
            return Some((d, w));
        }
    }
    None
}
