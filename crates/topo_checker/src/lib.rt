// Translated from src/algorithms/convex/topo_convex_checker.rs of portgraph (88172a3c8e, Apache-2.0, see NOTICE), and changed: marks by
// place in the lent area for the two sets, the order from the area's tables, and an unknown node is a refusal.
#![tactic(auto)]

pub mod layout;
pub mod listing;
pub mod near;
pub mod passing;

ghost use Rattle.paper.specs.Calls.{order_rules};
ghost use Rattle.paper.specs.OrderCheck.{order_check};
ghost use Rattle.tables.specs.Answered.{Answered};
ghost use Rattle.tables.specs.Usable.{Usable};
ghost use Rattle.answers.specs.Said.{topo_said};

use layout::lay_out;
use listing::take_list;
use passing::marked_convex;
use refusals::Refusal;
use tables::Layout;
use words::entries::Entries;

// Whether the nodes listed induce a convex subgraph, the list as a set (the Rust's `is_node_convex`), or refusal 9.
pub fn check_order<E: Entries + Copy>(
    b: &[u8],
    at: Layout,
    area: &mut [u16],
    list: E,
) -> Result<bool, Refusal>
    requires { Usable b.now area.old at }
    ensures { Answered at area.old area.new (topo_said result) (order_rules b.now (E.entries list)) (order_check b.now area.old (E.entries list)) }
{
    let room = lay_out(b, at, area);
    take_list(at, area, room, list)?;
    Ok(marked_convex(b, at, area, room))
}
