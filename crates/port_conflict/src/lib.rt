// Translated from src/algorithms/convex/line_convex_checker.rs of portgraph (88172a3c8e, Apache-2.0, see NOTICE), and changed: `is_convex`
// finds the first links of the outputs in one pass over the links, with marks for the listed ports in place of a set.
#![tactic(auto)]

pub mod links;
pub mod marks;
pub mod room;

ghost use Rattle.paper.specs.Calls.{port_rules};
ghost use Rattle.paper.specs.Ports.{conflict};
ghost use Rattle.refusals.specs.Said.{answer_of};
ghost use Rattle.tables.specs.Answered.{Answered};
ghost use Rattle.tables.specs.Usable.{Usable};

use links::first_links_meet;
use marks::mark_lists;
use neighbours::first_ports_at;
use refusals::Refusal;
use room::lay_room;
use tables::Layout;
use words::entries::Entries;

// Whether a listed input is the other end of the first link of a listed output, or refusal 14. Either list may name ports of either direction; an
// unknown input comes before an unknown output.
pub fn check_ports<E: Entries + Copy>(
    b: &[u8],
    at: Layout,
    area: &mut [u16],
    inputs: E,
    outputs: E,
) -> Result<bool, Refusal>
    requires { Usable b.now area.old at }
    ensures { Answered at area.old area.new (answer_of result)
        (port_rules b.now (E.entries inputs) (E.entries outputs))
        (conflict b.now (E.entries inputs) (E.entries outputs)) }
{
    let room = lay_room(at);
    mark_lists(at, area, room, inputs, outputs)?;
    first_ports_at(b, at.sizes, area, room.firsts);
    Ok(first_links_meet(b, at, area, room))
}
