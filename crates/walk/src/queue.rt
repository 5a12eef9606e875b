// Translated from src/algorithms/convex/line_convex_checker.rs of portgraph (88172a3c8e, Apache-2.0, see NOTICE), and changed: marks and a
// queue of N words stand for the queue with repeats and the visited set, so a node joins once.
ghost use Rattle.std.specs.Prelude.{[], ◌∷◌, ◌<◌};
ghost use Rattle.walk.specs.Queue.{Queued, Grown};

// Lets node v join the queue, unless it has joined before; answers how many have joined.
pub fn join(area: &mut [u16], queue: usize, n: usize, joined: usize, v: usize) -> usize
    requires queued { Queued area.old queue n joined }
    requires v_lt_n { v < n }
    ensures { Grown area.old queue n joined (v ∷ []) result area.new }
{
    if area[queue + n + v] != 0 {
        return joined;
    }
    area[queue + n + v] = 1;
    area[queue + joined] = v as u16;
    joined + 1
}
