// Translated from src/algorithms/convex/topo_convex_checker.rs of portgraph (88172a3c8e, Apache-2.0, see NOTICE), and changed: each call opens
// the map and its tables anew, refuses what 01 refuses, and leaves the scratch at 0.
ghost use Rattle.std.specs.Prelude.{◌≡◌};
ghost use Rattle.paper.specs.Calls.{topo_is_convex, topo_is_node_convex};
ghost use Rattle.paper.specs.Promise.{KnownPorts, KnownSteps, OrderPortsPromise, OrderPromise, Trusted};
ghost use Rattle.answers.specs.Said.{topo_said};

use opening::ends::clear_scratch;
use opening::open;
use refusals::Refusal;
use topo_checker::check_order;
use with_ports::check_order_with_ports;

// Order check: whether a list of nodes, taken as a set, is convex (the Rust's `is_node_convex`). Refusals 1 to 5, 7, 9.
pub fn is_node_convex(map: &[u8], area: &mut [u16], list: &[u16]) -> Result<bool, Refusal>
    ensures area_after { record { answer = topo_said result; area = area.new }
        ≡ topo_is_node_convex map.now area.old list.now }
    ensures order_promise { Trusted map.now area.old → KnownSteps map.now list.now
        → OrderPromise map.now list.now (topo_said result) }
{
    let at = open(map, area)?;
    let ordered = check_order(map, at, area, list);
    clear_scratch(area, at);
    ordered
}

// Order check with ports: no if a listed input is the other end of the first link of a listed output; else the order check (the Rust's
// `is_convex`). Refusals 1 to 5, 7, 9, 14.
pub fn is_convex(
    map: &[u8],
    area: &mut [u16],
    list: &[u16],
    inputs: &[u16],
    outputs: &[u16],
) -> Result<bool, Refusal>
    ensures area_after { record { answer = topo_said result; area = area.new }
        ≡ topo_is_convex map.now area.old list.now inputs.now outputs.now }
    ensures order_ports_promise { Trusted map.now area.old → KnownSteps map.now list.now
        → KnownPorts map.now inputs.now → KnownPorts map.now outputs.now
        → OrderPortsPromise map.now list.now inputs.now outputs.now (topo_said result) }
{
    let at = open(map, area)?;
    let ported = check_order_with_ports(map, at, area, list, inputs, outputs);
    clear_scratch(area, at);
    ported
}
