// The start lists and the entries of the tables.
ghost use Rattle.std.specs.Prelude.{◌≡◌, ◌+◌, ◌≤◌, ◌<◌, ltb, length, get_or};
ghost use Rattle.lists.specs.Lists.{all, upto};
ghost use Rattle.lists.proofs.Tests.{Says};
ghost use Rattle.paper.specs.Accepted.{starts_well};
ghost use Rattle.agreement.specs.Tables.{Known, Sized};

use tables::Layout;

// Whether the start list at `at`, with `count` entries after the first, begins at 0, strictly rises and ends at `end`.
fn starts_well(area: &[u16], at: usize, count: usize, end: usize) -> bool
    requires { at + count < length area.now }
    ensures { result ≡ starts_well (λ i. get_or area.now (at + i) 0) count end }
{
    if area[at] != 0 {
        return false;
    }
    for i in 0..count {
        if area[at + i] >= area[at + i + 1] {
            return false;
        }
    }
    usize::from(area[at + count]) == end
}

// Whether each of the `count` words from `at` on is below `bound`.
fn entries_below(area: &[u16], at: usize, count: usize, bound: usize) -> bool
    requires { at + count ≤ length area.now }
    ensures { result ≡ all (λ i. ltb (get_or area.now (at + i) 0) bound) (upto count) }
{
    area[at..at + count].iter().all(|x| usize::from(*x) < bound)
}

// Whether both start lists are as 01 says, and the entries are below k and the number of nodes.
pub fn tables_known(area: &[u16], at: Layout, k: usize) -> bool
    requires { Sized area.now at k }
    ensures { Says result (Known area.now at k) }
{
    let count = at.sizes.links + k;
    if !starts_well(area, at.begins, at.sizes.nodes, count) {
        return false;
    }
    if !starts_well(area, at.starts, k, count) {
        return false;
    }
    if !entries_below(area, at.lines, count, k) {
        return false;
    }
    entries_below(area, at.along, count, at.sizes.nodes)
}
