// The order of the tables: it holds each node once, and every link goes forward in it.
ghost use Rattle.std.specs.Prelude.{◌≡◌, ◌≤◌, ◌<◌, T, ltb, length, get_or};
ghost use Rattle.lists.specs.Lists.{all, upto};
ghost use Rattle.lists.proofs.Tests.{Says};
ghost use Rattle.paper.specs.Map.{link_from, link_to};
ghost use Rattle.acceptance.specs.Testable.{Ordered, Testable};
ghost use Rattle.acceptance.specs.Places.{EachOnce, Kept, KeptUpto, Linking, PlacesKnown, at_place};

use stepmap::access::{link_from, link_to};
use stepmap::read::Sizes;
use tables::Layout;

// Stores the place of each of the n words of an order, while they are below n; a word that stands twice keeps its last place.
fn keep_places(order: &[u16], places: &mut [u16]) -> bool
    requires order_in_bounds { length order.now ≤ length places.old }
    requires order_len_bound { length order.now < 65536 }
    ensures { Kept order.now result places.new }
{
    let n = order.len();
    for (i, word) in order.iter().enumerate() {
        let v = usize::from(*word);
        if v >= n {
            return false;
        }
        places[v] = i as u16;
    }
    true
}

// Whether each word of an order stands at the place that was kept for it.
fn at_places(order: &[u16], places: &[u16]) -> bool
    requires { PlacesKnown order.now places.now }
    ensures { result ≡ all (at_place order.now places.now) (upto (length order.now)) }
{
    for (i, word) in order.iter().enumerate() {
        let v = usize::from(*word);
        if usize::from(places[v]) != i {
            return false;
        }
    }
    true
}

// Whether an order of n words holds each number below n once; then each one's place is kept.
fn each_once(order: &[u16], places: &mut [u16]) -> bool
    requires order_in_bounds { length order.now ≤ length places.old }
    requires order_len_bound { length order.now < 65536 }
    ensures says { Says result (EachOnce order.now) }
    ensures kept_upto { T result → KeptUpto order.now (length order.now) places.new }
{
    if !keep_places(order, places) {
        return false;
    }
    at_places(order, places)
}

// Whether each link goes from an earlier place to a later one.
fn links_forward(b: &[u8], sizes: Sizes, places: &[u16]) -> bool
    requires { Linking b.now sizes places.now }
    ensures { result
        ≡ all (λ k. ltb (get_or places.now (link_from b.now k) 0) (get_or places.now (link_to b.now k) 0)) (upto sizes.links) }
{
    for k in 0..sizes.links {
        let from = link_from(b, sizes.nodes, k);
        let to = link_to(b, sizes.nodes, k);
        if places[from] >= places[to] {
            return false;
        }
    }
    true
}

// Whether the order holds each node once and every link goes forward in it.
pub fn order_forward(b: &[u8], at: Layout, area: &[u16]) -> bool
    requires { Testable b.now area.now at }
    ensures { Says result (Ordered b.now area.now) }
{
    // a place for each node that a map may have
    let mut places = [0u16; 512];
    let first = at.order;
    let end = first + at.sizes.nodes;
    if !each_once(&area[first..end], &mut places) {
        return false;
    }
    links_forward(b, at.sizes, &places)
}
