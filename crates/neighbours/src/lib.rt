// The links of a map laid once: its nodes' first ports and the links by output port, and behind them the links by input port, in the lent
// area; and from them the steps that a node feeds.
#![tactic(auto)]

pub mod by_port;
pub mod keys;

ghost use Rattle.std.specs.Prelude.{◌≡◌, map, ◌+◌, ◌≤◌, ◌<◌, length};
ghost use Rattle.std.proofs.lemmas.List.Edits.{sets};
ghost use Rattle.lists.specs.Lists.{upto};
ghost use Rattle.paper.specs.Map.{first_port};
ghost use Rattle.stepmap.specs.Formed.{Numbered};
ghost use Rattle.neighbours.specs.Linked.{Free, IncomingLaid, Outgoing, OutgoingLaid, incoming_size, out_start, out_target, outgoing_size};

use by_port::{links_by_input, links_by_output};
use stepmap::access::link_to;
use stepmap::ports::first_ports;
use stepmap::read::Sizes;
use words::section::word_at;

// Where the links by port stand, of one direction: the nodes' first ports, the keys of the sort, where each port's links start, and the
// links. The keys are free once the links stand.
#[derive(Clone, Copy)]
pub struct Listing {
    pub firsts: usize,
    pub keys: usize,
    pub starts: usize,
    pub sorted: usize,
    pub end: usize,
}

// Writes the first ports of the nodes, and their number, to the section at `firsts`.
pub fn first_ports_at(b: &[u8], sizes: Sizes, area: &mut [u16], firsts: usize)
    requires numbered { Numbered b.now sizes.nodes }
    requires n_in_bounds { firsts + (sizes.nodes + 1) ≤ length area.old }
    ensures { area.new ≡ sets area.old firsts (map (first_port b.now) (upto (sizes.nodes + 1))) }
{
    let end = firsts + (sizes.nodes + 1);
    first_ports(b, sizes.nodes, &mut area[firsts..end]);
}

// Lays the first ports and the links by output port from `from` on.
pub fn lay_outgoing(b: &[u8], sizes: Sizes, area: &mut [u16], from: usize) -> Listing
    requires { Free b.now area.old sizes from (outgoing_size sizes) }
    ensures { OutgoingLaid b.now area.old sizes from result area.new }
{
    let keys = from + (sizes.nodes + 1);
    let starts = keys + sizes.links;
    let sorted = starts + (sizes.ports + 1);
    let end = sorted + sizes.links;
    let at = Listing {
        firsts: from,
        keys,
        starts,
        sorted,
        end,
    };
    first_ports_at(b, sizes, area, at.firsts);
    links_by_output(b, sizes, area, at);
    at
}

// Lays the links by input port behind those by output port, with the same first ports, and with keys in the same place.
pub fn lay_incoming(b: &[u8], sizes: Sizes, area: &mut [u16], out: Listing) -> Listing
    requires outgoing { Outgoing b.now area.old sizes out }
    requires sizes_in_bounds { out.end + incoming_size sizes ≤ length area.old }
    ensures { IncomingLaid b.now area.old sizes out result area.new }
{
    let starts = out.end;
    let sorted = starts + (sizes.ports + 1);
    let end = sorted + sizes.links;
    let back = Listing {
        firsts: out.firsts,
        keys: out.keys,
        starts,
        sorted,
        end,
    };
    links_by_input(b, sizes, area, back);
    back
}

// Where the links out of node v start among those by output port; those of the node before it end there.
pub fn targets_start(b: &[u8], sizes: Sizes, area: &[u16], at: Listing, v: usize) -> usize
    requires outgoing { Outgoing b.now area.now sizes at }
    requires v_le_nodes { v ≤ sizes.nodes }
    ensures { result ≡ out_start b.now v }
{
    let first = word_at(area, at.firsts, v);
    word_at(area, at.starts, first)
}

// The node that the i-th of those links leads to.
pub fn target_at(b: &[u8], sizes: Sizes, area: &[u16], at: Listing, i: usize) -> usize
    requires outgoing { Outgoing b.now area.now sizes at }
    requires i_lt_links { i < sizes.links }
    ensures { result ≡ out_target b.now i }
{
    let k = word_at(area, at.sorted, i);
    link_to(b, sizes.nodes, k)
}
