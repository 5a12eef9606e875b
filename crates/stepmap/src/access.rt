// Translated from src/view.rs of portgraph (88172a3c8e, Apache-2.0, see NOTICE), and changed: the graph behind `PortView`
// and `LinkView` is the step map's bytes, and a node or a link is its number. A field has
// an accessor of its own, under the Rust's name.
ghost use Rattle.std.specs.Prelude.{◌≡◌, ◌+◌, ◌*◌, ◌<◌, length};
ghost use Rattle.paper.specs.Map.{word, ins, outs, link_from, link_out, link_to, link_in};
ghost use Rattle.stepmap.specs.Formed.{HasLink};

use words::field::field_at;

// The field at a place of the bytes, as a number to count with.
pub fn number_at(b: &[u8], at: usize) -> usize
    requires { at + 1 < length b.now }
    ensures { result ≡ word b.now at }
{
    usize::from(field_at(b, at))
}

// How many inputs node v has (the Rust's `num_inputs`).
pub fn num_inputs(b: &[u8], v: usize) -> usize
    requires { 4 * v + 3 < length b.now }
    ensures { result ≡ ins b.now v }
{
    number_at(b, 4 * v)
}

// How many outputs node v has (the Rust's `num_outputs`).
pub fn num_outputs(b: &[u8], v: usize) -> usize
    requires { 4 * v + 3 < length b.now }
    ensures { result ≡ outs b.now v }
{
    number_at(b, 4 * v + 2)
}

// The node that link k starts at; n is the number of nodes.
pub fn link_from(b: &[u8], n: usize, k: usize) -> usize
    requires { HasLink b.now n k }
    ensures { result ≡ link_from b.now k }
{
    number_at(b, 4 * n + 8 * k)
}

// The offset, among that node's outputs, at which link k starts.
pub fn link_out(b: &[u8], n: usize, k: usize) -> usize
    requires { HasLink b.now n k }
    ensures { result ≡ link_out b.now k }
{
    number_at(b, 4 * n + 8 * k + 2)
}

// The node that link k ends at.
pub fn link_to(b: &[u8], n: usize, k: usize) -> usize
    requires { HasLink b.now n k }
    ensures { result ≡ link_to b.now k }
{
    number_at(b, 4 * n + 8 * k + 4)
}

// The offset, among that node's inputs, at which link k ends.
pub fn link_in(b: &[u8], n: usize, k: usize) -> usize
    requires { HasLink b.now n k }
    ensures { result ≡ link_in b.now k }
{
    number_at(b, 4 * n + 8 * k + 6)
}
