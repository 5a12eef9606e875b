// The order checker's calls on lists whose words cross as bytes; the area is one of words.
ghost use Rattle.std.specs.Prelude.{◌≡◌};
ghost use Rattle.paper.specs.Calls.{topo_is_convex, topo_is_node_convex};
ghost use Rattle.paper.specs.Words.{words_from};
ghost use Rattle.answers.specs.Said.{topo_said};

use opening::ends::clear_scratch;
use opening::open;
use refusals::Refusal;
use topo_checker::check_order;
use with_ports::check_order_with_ports;

// Order check of a list in bytes.
pub fn is_node_convex(map: &[u8], area: &mut [u16], list: &[u8]) -> Result<bool, Refusal>
    ensures { record { answer = topo_said result; area = area.new }
        ≡ topo_is_node_convex map.now area.old (words_from list.now) }
{
    let at = open(map, area)?;
    let ordered = check_order(map, at, area, list);
    clear_scratch(area, at);
    ordered
}

// Order check with ports, all lists in bytes.
pub fn is_convex(
    map: &[u8],
    area: &mut [u16],
    list: &[u8],
    inputs: &[u8],
    outputs: &[u8],
) -> Result<bool, Refusal>
    ensures { record { answer = topo_said result; area = area.new }
        ≡ topo_is_convex map.now area.old (words_from list.now) (words_from inputs.now) (words_from outputs.now) }
{
    let at = open(map, area)?;
    let ported = check_order_with_ports(map, at, area, list, inputs, outputs);
    clear_scratch(area, at);
    ported
}
