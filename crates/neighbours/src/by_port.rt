// The links of a step map by output port and by input port, each in listing order: one counting sort each, into the lent area.
// The two differ in who writes the keys, and a closure for that would have to say what it writes, which is longer than the second function.
ghost use Rattle.std.specs.Prelude.{◌≡◌, map, ◌+◌, get_or};
ghost use Rattle.lists.specs.Lists.{upto};
ghost use Rattle.paper.specs.Map.{source_port, target_port};
ghost use Rattle.neighbours.specs.Tabled.{Roomy, Spanned, by_port};

use super::Listing;
use super::keys::{source_keys, target_keys};
use counting_sort::count_sort;
use stepmap::read::Sizes;

// Lists the links by output port, then listing order: where each port starts goes to `at.starts`, the links to
// `at.sorted`.
pub fn links_by_output(b: &[u8], sizes: Sizes, area: &mut [u16], at: Listing)
    requires { Roomy b.now area.old sizes at }
    ensures { area.new ≡ by_port area.old sizes at (map (source_port b.now) (upto sizes.links)) }
{
    source_keys(b, sizes, area, at);
    count_sort(
        area,
        at.keys,
        sizes.links,
        at.starts,
        sizes.ports,
        at.sorted,
    );
}

// Lists the links by input port.
pub fn links_by_input(b: &[u8], sizes: Sizes, area: &mut [u16], at: Listing)
    requires { Roomy b.now area.old sizes at }
    ensures { area.new ≡ by_port area.old sizes at (map (target_port b.now) (upto sizes.links)) }
{
    target_keys(b, sizes, area, at);
    count_sort(
        area,
        at.keys,
        sizes.links,
        at.starts,
        sizes.ports,
        at.sorted,
    );
}

// Where the links of node v start among the links by port; those of the node before it end there.
pub fn links_start(area: &[u16], at: Listing, v: usize) -> usize
    requires { Spanned area.now at v }
    ensures { result ≡ get_or area.now (at.starts + get_or area.now (at.firsts + v) 0) 0 }
{
    let first = usize::from(area[at.firsts + v]);
    usize::from(area[at.starts + first])
}
