// The reader of a step map: refusals 1 and 2. Any bytes of any length are answered.
ghost use Rattle.std.specs.Prelude.{◌≡◌, [], ◌∷◌, ◌+◌, ◌*◌, ◌≤◌, length, take, drop};
ghost use Rattle.lists.specs.Lists.{all, upto, same};
ghost use Rattle.paper.specs.Map.{N, L, P, PGT1, well_formed};
ghost use Rattle.paper.specs.Refusals.{decide, answer, rule1, rule2};
ghost use Rattle.refusals.specs.Said.{answer_of};
ghost use Rattle.stepmap.specs.Formed.{few_ports, sizes_of};

use super::access::{num_inputs, num_outputs, number_at};
use super::ports::first_port;
use refusals::Refusal;

// How many nodes, links and ports a map has: what the reader finds, handed on by value.
#[derive(Clone, Copy)]
pub struct Sizes {
    pub nodes: usize,
    pub links: usize,
    pub ports: usize,
}

// How many nodes the trailer says (the Rust's `node_count`).
pub fn node_count(b: &[u8]) -> usize
    requires { 12 ≤ length b.now }
    ensures { result ≡ N b.now }
{
    number_at(b, b.len() - 12 + 2)
}

// How many links the trailer says (the Rust's `link_count`).
pub fn link_count(b: &[u8]) -> usize
    requires { 12 ≤ length b.now }
    ensures { result ≡ L b.now }
{
    number_at(b, b.len() - 12 + 6)
}

// Whether the mark of a step map stands at a place.
fn is_mark(b: &[u8], at: usize) -> bool
    requires { at + 4 ≤ length b.now }
    ensures { result ≡ same (take 4 (drop at b.now)) PGT1 }
{
    let mark = b"PGT1";
    b[at..at + 4] == mark[..]
}

// Whether length, distances and mark are right. The distances are compared as numbers, not modulo 65536.
pub fn well_formed(b: &[u8]) -> bool
    ensures { result ≡ well_formed b.now }
{
    if b.len() < 12 {
        return false;
    }
    let trailer = b.len() - 12;
    let n = node_count(b);
    let l = link_count(b);
    if number_at(b, trailer) != 4 * n + 8 * l {
        return false;
    }
    if number_at(b, trailer + 4) != 8 * l {
        return false;
    }
    if b.len() != 4 * n + 8 * l + 12 {
        return false;
    }
    is_mark(b, trailer + 8)
}

// Whether none of the first n nodes has more than 255 inputs or outputs.
fn degrees_within(b: &[u8], n: usize) -> bool
    requires { 4 * n ≤ length b.now }
    ensures { result ≡ all (few_ports b.now) (upto n) }
{
    for v in 0..n {
        if num_inputs(b, v) > 255 {
            return false;
        }
        if num_outputs(b, v) > 255 {
            return false;
        }
    }
    true
}

// Reads a map: its sizes, or refusal 1, then refusal 2.
pub fn read_map(b: &[u8]) -> Result<Sizes, Refusal>
    ensures { answer_of result ≡ answer (decide (rule1 b.now ∷ rule2 b.now ∷ [])) (sizes_of b.now) }
{
    if !well_formed(b) {
        return Err(Refusal::Malformed);
    }
    let n = node_count(b);
    let l = link_count(b);
    if n > 512 {
        return Err(Refusal::TooLarge);
    }
    if l > 2048 {
        return Err(Refusal::TooLarge);
    }
    if !degrees_within(b, n) {
        return Err(Refusal::TooLarge);
    }
    let p = first_port(b, n);
    if p > 4096 {
        return Err(Refusal::TooLarge);
    }
    Ok(Sizes {
        nodes: n,
        links: l,
        ports: p,
    })
}
