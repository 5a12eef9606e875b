// Translated from src/algorithms/toposort.rs of portgraph (88172a3c8e, Apache-2.0, see NOTICE), and changed: the whole order is laid
// into the lent area, unfiltered, from all nodes without linked inputs, and a cycle is a refusal.
#![tactic(auto)]

pub mod ordering;
pub mod queue;
pub mod turns;

ghost use Rattle.std.specs.Prelude.{◌≡◌, []};
ghost use Rattle.std.proofs.lemmas.List.Edits.{sets};
ghost use Rattle.paper.specs.Order.{queue_after};
ghost use Rattle.paper.specs.Refusals.{rule6};
ghost use Rattle.refusals.specs.Said.{ruling_of};
ghost use Rattle.toposort.specs.Standing.{Indexed, laid, open_inputs, with_targets};

use counting_sort::tally;
use neighbours::Listing;
use neighbours::keys::target_nodes;
use queue::{free_nodes, lowest_left};
use refusals::Refusal;
use tables::Layout;
use turns::all_turns;
use words::section::fill;

// Counts the links to each node, behind the links by port; their targets take the place of the keys.
fn count_inputs(b: &[u8], at: Layout, area: &mut [u16], links: Listing)
    requires { Indexed b.now area.old at links }
    ensures { area.new
        ≡ sets (with_targets b.now area.old at links) links.end (open_inputs b.now at.sizes.nodes []) }
{
    let n = at.sizes.nodes;
    let counts = links.end;
    target_nodes(b, at.sizes, area, links);
    fill(area, counts, n, 0);
    tally(area, links.keys, at.sizes.links, counts, n);
}

// Orders the nodes into the order section (the Rust's `toposort`); on a cycle, names the lowest node never ordered.
pub fn toposort(b: &[u8], at: Layout, area: &mut [u16], links: Listing) -> Result<(), Refusal>
    requires { Indexed b.now area.old at links }
    ensures { (ruling_of result ≡ rule6 b.now)
        × (area.new ≡ laid b.now (with_targets b.now area.old at links) at links (queue_after b.now at.sizes.nodes)) }
{
    let n = at.sizes.nodes;
    let counts = links.end;
    count_inputs(b, at, area, links);
    let joined = free_nodes(area, at.order, counts, n);
    all_turns(b, at, area, links, joined);
    match lowest_left(area, counts, n) {
        None => Ok(()),
        Some(v) => Err(Refusal::Cycle(v)),
    }
}
