// Translated from src/algorithms/toposort.rs of portgraph (88172a3c8e, Apache-2.0, see NOTICE), and changed: the queue is a
// section of the lent area, and a counter for each node stands for its visited ports.
ghost use Rattle.std.specs.Prelude.{◌≡◌, not, cond, ◌+◌, ◌≤◌, length, get_or, set, eqb};
ghost use Rattle.std.proofs.lemmas.List.Edits.{sets};
ghost use Rattle.lists.specs.Lists.{one};
ghost use Rattle.lists.specs.Found.{first, found_of};
ghost use Rattle.toposort.specs.Queue.{Counters, Joining, Following, zero_counters, followed};

// Lets node v join the queue if its counter is 0; answers how many have joined.
fn join_if_free(area: &mut [u16], order: usize, counts: usize, joined: usize, v: usize) -> usize
    requires { Joining area.old order counts joined v }
    ensures { (result ≡ joined + one (eqb (get_or area.old (counts + v) 0) 0))
        × (area.new ≡ cond (eqb (get_or area.old (counts + v) 0) 0) (set area.old (order + joined) v) area.old) }
{
    if area[counts + v] != 0 {
        return joined;
    }
    area[order + joined] = v as u16;
    joined + 1
}

// Starts the queue with the nodes whose counter is 0, by number; answers how many.
pub fn free_nodes(area: &mut [u16], order: usize, counts: usize, n: usize) -> usize
    requires { Counters area.old order counts n }
    ensures { (result ≡ length (zero_counters area.old counts n))
        × (area.new ≡ sets area.old order (zero_counters area.old counts n)) }
{
    let mut joined = 0;
    for v in 0..n {
        joined = join_if_free(area, order, counts, joined, v);
    }
    joined
}

// Follows a link to node w: lowers its counter, and lets it join the queue at the link that fills its last linked input.
pub fn follow(area: &mut [u16], order: usize, counts: usize, joined: usize, w: usize) -> usize
    requires { Following area.old order counts joined w }
    ensures { (result ≡ joined + one (eqb (get_or area.old (counts + w) 0) 1))
        × (area.new ≡ followed area.old order counts joined w) }
{
    let open = area[counts + w];
    area[counts + w] = open - 1;
    if open != 1 {
        return joined;
    }
    area[order + joined] = w as u16;
    joined + 1
}

// The lowest node whose counter is not 0: it was never ordered.
pub fn lowest_left(area: &[u16], counts: usize, n: usize) -> Option<usize>
    requires { counts + n ≤ length area.now }
    ensures { found_of result ≡ first (λ v. not (eqb (get_or area.now (counts + v) 0) 0)) n }
{
    for v in 0..n {
        if area[counts + v] != 0 {
            return Some(v);
        }
    }
    None
}
