// Translated from `lines_at_port` of src/algorithms/convex/line_convex_checker.rs of portgraph (88172a3c8e, Apache-2.0, see NOTICE), and
// changed: the links of a node's earlier ports are counted in one pass over the map's links.
#![tactic(auto)]

ghost use Rattle.std.specs.Prelude.{◌≡◌, ◌+◌, ◌<◌};
ghost use Rattle.paper.specs.Map.{P};
ghost use Rattle.std.proofs.Math.Seq.{slice};
ghost use Rattle.paper.specs.Ports.{first_line, line_count_at, view_start};
ghost use Rattle.stepmap.specs.Formed.{HasLink, ReadWell};
ghost use Rattle.tables.specs.Usable.{Usable};
ghost use Rattle.port_lines.specs.Ends.{KnownPort, end_node, end_offset, is_among, links_among};
ghost use Rattle.port_lines.specs.Place.{StartsAt};

use stepmap::access::{link_from, link_in, link_out, link_to};
use stepmap::ports::{is_output, port_node, port_offset};
use stepmap::read::Sizes;
use tables::Layout;
use words::section::word_at;

// The node of link k at its output or at its input. The direction is the port's, read from the map, so it is handed on as what it is.
fn end_node(b: &[u8], n: usize, k: usize, out: bool) -> usize
    requires { HasLink b.now n k }
    ensures { result ≡ end_node b.now out k }
{
    if out {
        link_from(b, n, k)
    } else {
        link_to(b, n, k)
    }
}

// The offset of link k there, among the node's outputs or its inputs.
fn end_offset(b: &[u8], n: usize, k: usize, out: bool) -> usize
    requires { HasLink b.now n k }
    ensures { result ≡ end_offset b.now out k }
{
    if out {
        link_out(b, n, k)
    } else {
        link_in(b, n, k)
    }
}

// Whether link k stands at node v at an offset from `low` on and below `high`.
fn is_among(b: &[u8], n: usize, k: usize, out: bool, v: usize, low: usize, high: usize) -> bool
    requires { HasLink b.now n k }
    ensures { result ≡ is_among b.now out v low high k }
{
    let offset = end_offset(b, n, k, out);
    end_node(b, n, k, out) == v && low <= offset && offset < high
}

// How many links stand at node v's ports of one direction at offsets from `low` on and below `high`.
fn links_among(b: &[u8], n: usize, l: usize, out: bool, v: usize, low: usize, high: usize) -> usize
    requires { ReadWell b.now n l (P b.now) }
    ensures { result ≡ links_among b.now out v low high }
{
    (0..l)
        .filter(|k| is_among(b, n, *k, out, v, low, high))
        .count()
}

// The place in its node's list of a port's first line: one line is skipped for each link on earlier ports of the same direction.
pub fn first_line(b: &[u8], sizes: Sizes, port: usize) -> usize
    requires { KnownPort b.now sizes port }
    ensures { result ≡ first_line b.now port }
{
    let out = is_output(b, sizes.nodes, port);
    let v = port_node(b, sizes.nodes, port);
    let offset = port_offset(b, sizes.nodes, port);
    links_among(b, sizes.nodes, sizes.links, out, v, 0, offset)
}

// How many lines a port has: one for each of its links.
pub fn line_count(b: &[u8], sizes: Sizes, port: usize) -> usize
    requires { KnownPort b.now sizes port }
    ensures { result ≡ line_count_at b.now port }
{
    let out = is_output(b, sizes.nodes, port);
    let v = port_node(b, sizes.nodes, port);
    let offset = port_offset(b, sizes.nodes, port);
    links_among(b, sizes.nodes, sizes.links, out, v, offset, offset + 1)
}

// The word of the area that a port's lines start at: in its node's list, behind the lines of its earlier ports.
pub fn view_start(b: &[u8], at: Layout, area: &[u16], port: usize) -> usize
    requires usable { Usable b.now area.now at }
    requires port_lt_ports { port < at.sizes.ports }
    ensures { result ≡ view_start b.now area.now port }
{
    let v = port_node(b, at.sizes.nodes, port);
    let first = first_line(b, at.sizes, port);
    at.lines + word_at(area, at.begins, v) + first
}

// The lines at a port, as a part of the area (the Rust's `lines_at_port`): its words, and the place in the area that it starts at.
pub fn lines_at_port<'a>(b: &[u8], at: Layout, area: &'a [u16], port: usize) -> &'a [u16]
    requires usable { Usable b.now area.now at }
    requires port_lt_ports { port < at.sizes.ports }
    ensures result_value { result.now ≡ slice (view_start b.now area.now port)
        (view_start b.now area.now port + line_count_at b.now port) area.now }
    ensures starts_at { StartsAt result area.entry (view_start b.now area.now port) }
{
    let from = view_start(b, at, area, port);
    let count = line_count(b, at.sizes, port);
    &area[from..from + count]
}
