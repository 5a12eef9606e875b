// The pass over the links: a listed output's mark stands until its first link, so the first link alone is held against the inputs' marks.
ghost use Rattle.std.specs.Prelude.{◌≡◌, ◌+◌, ◌<◌, length};
ghost use Rattle.paper.specs.Map.{source_port, target_port};
ghost use Rattle.port_conflict.specs.FirstLinks.{leads};
ghost use Rattle.port_conflict.specs.Marks.{Laid, LinkPassed, LinksPassed, marked};

use super::room::PortRoom;
use stepmap::access::{link_from, link_in, link_out, link_to, num_inputs};
use tables::Layout;
use words::section::word_at;

// The port that link k starts at.
fn source_port(b: &[u8], at: Layout, area: &[u16], room: PortRoom, k: usize) -> usize
    requires laid { Laid b.now area.now at room }
    requires k_lt_links { k < at.sizes.links }
    ensures { result ≡ source_port b.now k }
{
    let v = link_from(b, at.sizes.nodes, k);
    word_at(area, room.firsts, v) + num_inputs(b, v) + link_out(b, at.sizes.nodes, k)
}

// The port that link k ends at.
fn target_port(b: &[u8], at: Layout, area: &[u16], room: PortRoom, k: usize) -> usize
    requires laid { Laid b.now area.now at room }
    requires k_lt_links { k < at.sizes.links }
    ensures { result ≡ target_port b.now k }
{
    let v = link_to(b, at.sizes.nodes, k);
    word_at(area, room.firsts, v) + link_in(b, at.sizes.nodes, k)
}

// Whether a port is marked among the outputs, and another among the inputs.
fn leads_to_input(area: &[u16], room: PortRoom, port: usize, other: usize) -> bool
    requires { (room.outputs + port < length area.now) × (room.inputs + other < length area.now) }
    ensures { result ≡ leads (marked area.now room.inputs) (marked area.now room.outputs) port other }
{
    word_at(area, room.outputs, port) == 1 && word_at(area, room.inputs, other) == 1
}

// Whether link k joins a marked output and a marked input. Where it does not, later links are not the first ones of its ends.
fn pass_link(b: &[u8], at: Layout, area: &mut [u16], room: PortRoom, k: usize) -> bool
    requires laid { Laid b.now area.old at room }
    requires k_lt_links { k < at.sizes.links }
    ensures { LinkPassed b.now area.old area.new room k result }
{
    let source = source_port(b, at, area, room, k);
    let target = target_port(b, at, area, room, k);
    if leads_to_input(area, room, source, target) || leads_to_input(area, room, target, source) {
        return true;
    }
    area[room.outputs + source] = 0;
    area[room.outputs + target] = 0;
    false
}

// Whether one of the links is the first link of a marked output and has a marked input at its other end.
pub fn first_links_meet(b: &[u8], at: Layout, area: &mut [u16], room: PortRoom) -> bool
    requires { Laid b.now area.old at room }
    ensures { LinksPassed b.now area.old area.new at room result }
{
    for k in 0..at.sizes.links {
        if pass_link(b, at, area, room, k) {
            return true;
        }
    }
    false
}
