// Translated from `is_convex` of src/algorithms/convex.rs of portgraph (88172a3c8e, Apache-2.0, see NOTICE), as convex/line_convex_checker.rs
// and convex/topo_convex_checker.rs have it, and changed: the check runs before the ports are looked at, since its refusals come first.
#![tactic(auto)]

ghost use Rattle.std.specs.Prelude.{cond, ◌++◌};
ghost use Rattle.paper.specs.Calls.{line_rules, order_rules, port_rules};
ghost use Rattle.paper.specs.Intervals.{Reply};
ghost use Rattle.paper.specs.OrderCheck.{order_check};
ghost use Rattle.paper.specs.Ports.{conflict};
ghost use Rattle.paper.specs.Walk.{line_check};
ghost use Rattle.tables.specs.Answered.{Answered};
ghost use Rattle.tables.specs.Usable.{Usable};
ghost use Rattle.answers.specs.Said.{line_said, topo_said};

use answers::Verdict;
use line_checker::line_check::check_list;
use port_conflict::check_ports;
use refusals::Refusal;
use tables::Layout;
use topo_checker::check_order;
use words::entries::Entries;

// The line check with ports: the check's refusals come first, then 14; no with count 0 on a conflict; else the check.
pub fn check_list_with_ports<E: Entries + Copy>(
    b: &[u8],
    at: Layout,
    area: &mut [u16],
    list: E,
    inputs: E,
    outputs: E,
) -> Result<Verdict, Refusal>
    requires { Usable b.now area.old at }
    ensures { Answered at area.old area.new (line_said result)
        (line_rules b.now (E.entries list) ++ port_rules b.now (E.entries inputs) (E.entries outputs))
        (cond (conflict b.now (E.entries inputs) (E.entries outputs)) (Reply.No, 0)
        (line_check b.now area.old (E.entries list))) }
{
    let checked = check_list(b, at, area, list);
    let Ok(verdict) = checked else {
        return checked;
    };
    if check_ports(b, at, area, inputs, outputs)? {
        return Ok(Verdict::No(0));
    }
    Ok(verdict)
}

// The order check with ports: its refusal comes first, then 14; no on a conflict; else the check.
pub fn check_order_with_ports<E: Entries + Copy>(
    b: &[u8],
    at: Layout,
    area: &mut [u16],
    list: E,
    inputs: E,
    outputs: E,
) -> Result<bool, Refusal>
    requires { Usable b.now area.old at }
    ensures { Answered at area.old area.new (topo_said result)
        (order_rules b.now (E.entries list) ++ port_rules b.now (E.entries inputs) (E.entries outputs))
        (cond (conflict b.now (E.entries inputs) (E.entries outputs)) Reply.No
        (order_check b.now area.old (E.entries list))) }
{
    let checked = check_order(b, at, area, list);
    let Ok(convex) = checked else {
        return checked;
    };
    if check_ports(b, at, area, inputs, outputs)? {
        return Ok(false);
    }
    Ok(convex)
}
