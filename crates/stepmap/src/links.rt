// The check of a map's links: refusals 4 and 5. One pass over the nodes and one over the links, with one mark for each port.
ghost use Rattle.std.specs.Prelude.{◌≡◌, false, ◌||◌, cond, length, set};
ghost use Rattle.lists.specs.Found.{placed};
ghost use Rattle.paper.specs.Map.{P, target_port, missing, second};
ghost use Rattle.paper.specs.Refusals.{refuse_link, rule45};
ghost use Rattle.refusals.specs.Said.{ruling_of};
ghost use Rattle.stepmap.specs.Formed.{HasLink, ReadWell};
ghost use Rattle.stepmap.specs.Marks.{Blank, Firsts, LinkReady};

use super::access::{link_from, link_in, link_out, link_to, num_inputs, num_outputs};
use super::ports::first_ports;
use refusals::Refusal;

// A mark for each port that a map may have, none of them set: a function, since its contract says so of every port.
fn port_room() -> [u16; 4096]
    ensures { Blank 4096 result }
{
    [0u16; 4096]
}

// Whether link k names a node or a port that is not there.
fn is_missing(b: &[u8], n: usize, k: usize) -> bool
    requires { HasLink b.now n k }
    ensures { result ≡ missing b.now k }
{
    let from = link_from(b, n, k);
    if from >= n {
        return true;
    }
    if link_out(b, n, k) >= num_outputs(b, from) {
        return true;
    }
    let to = link_to(b, n, k);
    if to >= n {
        return true;
    }
    link_in(b, n, k) >= num_inputs(b, to)
}

// The port at which link k ends.
fn target_port(b: &[u8], n: usize, k: usize, firsts: &[u16]) -> usize
    requires has_link { HasLink b.now n k }
    requires firsts { Firsts b.now n firsts.now }
    requires k_value { missing b.now k ≡ false }
    ensures { result ≡ target_port b.now k }
{
    let to = link_to(b, n, k);
    usize::from(firsts[to]) + link_in(b, n, k)
}

// Checks link k, where the links before it are sound and have set the marks of their inputs, and sets its own.
fn check_link(
    b: &[u8],
    n: usize,
    k: usize,
    firsts: &[u16],
    marks: &mut [u16],
) -> Result<(), Refusal>
    requires { LinkReady b.now n k firsts.now marks.old }
    ensures result_value { ruling_of result ≡ refuse_link b.now (placed (missing b.now k || second b.now k) k) }
    ensures marks_after { marks.new ≡
        cond (missing b.now k || second b.now k)
        marks.old
        (set marks.old (target_port b.now k) 1) }
{
    if is_missing(b, n, k) {
        return Err(Refusal::Missing(k));
    }
    let target = target_port(b, n, k, firsts);
    if marks[target] == 1 {
        return Err(Refusal::Second(k));
    }
    marks[target] = 1;
    Ok(())
}

// Checks the links of a map of n nodes and l links: the first bad one decides, and for one link 4 comes before 5.
pub fn check_links(b: &[u8], n: usize, l: usize) -> Result<(), Refusal>
    requires { ReadWell b.now n l (P b.now) }
    ensures { ruling_of result ≡ rule45 b.now }
{
    let mut firsts = [0u16; 513];
    first_ports(b, n, &mut firsts);
    let mut marks = port_room();
    for k in 0..l {
        check_link(b, n, k, &firsts, &mut marks)?;
    }
    Ok(())
}
