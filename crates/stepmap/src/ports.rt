// Translated from src/view.rs of portgraph (88172a3c8e, Apache-2.0, see NOTICE), and changed: ports are numbered node by
// node, inputs before outputs, so a port's node and offset are counted from the map's bytes.
ghost use Rattle.std.specs.Prelude.{◌≡◌, map, ◌+◌, ◌*◌, ◌≤◌, length};
ghost use Rattle.std.proofs.lemmas.List.Edits.{sets};
ghost use Rattle.lists.specs.Lists.{upto};
ghost use Rattle.paper.specs.Map.{first_port, port_node, is_output};
ghost use Rattle.stepmap.specs.Formed.{Numbered, HasPort, port_of};

use super::access::{num_inputs, num_outputs};

// The first port of node v; that of the node after the last is the number of ports (the Rust's `port_count`).
pub fn first_port(b: &[u8], v: usize) -> usize
    requires { (4 * v ≤ length b.now) × (v ≤ 65535) }
    ensures { result ≡ first_port b.now v }
{
    let mut p: usize = 0;
    for u in 0..v {
        p += num_inputs(b, u) + num_outputs(b, u);
    }
    p
}

// The first ports of the first n nodes, and after them the number of their ports.
pub fn first_ports(b: &[u8], n: usize, firsts: &mut [u16])
    requires numbered { Numbered b.now n }
    requires n_in_bounds { n + 1 ≤ length firsts.old }
    ensures { firsts.new ≡ sets firsts.old 0 (map (first_port b.now) (upto (n + 1))) }
{
    let mut p: usize = 0;
    for v in 0..n {
        firsts[v] = p as u16;
        p += num_inputs(b, v) + num_outputs(b, v);
    }
    firsts[n] = p as u16;
}

// The node of port p, of a map of n nodes (the Rust's `port_node`).
pub fn port_node(b: &[u8], n: usize, p: usize) -> usize
    requires { HasPort b.now n p }
    ensures { result ≡ port_node b.now p }
{
    let mut v: usize = 0;
    let mut next = num_inputs(b, 0) + num_outputs(b, 0);
    // The ports end the search: the node that holds p comes before the last, so no range counts the nodes.
    while next <= p {
        v += 1;
        next += num_inputs(b, v) + num_outputs(b, v);
    }
    v
}

// Whether port p is an output (the Rust's `port_direction`).
pub fn is_output(b: &[u8], n: usize, p: usize) -> bool
    requires { HasPort b.now n p }
    ensures { result ≡ is_output b.now p }
{
    let v = port_node(b, n, p);
    first_port(b, v) + num_inputs(b, v) <= p
}

// The place of port p among its node's ports of its direction (the Rust's `port_offset`).
pub fn port_offset(b: &[u8], n: usize, p: usize) -> usize
    requires { HasPort b.now n p }
    ensures { p ≡ port_of b.now (is_output b.now p) (port_node b.now p) result }
{
    let v = port_node(b, n, p);
    let first = first_port(b, v);
    let outputs = first + num_inputs(b, v);
    if p < outputs {
        return p - first;
    }
    p - outputs
}
