// The port that each link starts at, the port and the node that it ends at, as keys to sort and to count by. The three loops differ in what they
// read of a link; one loop over a closure for the key would have to say at each call what the closure asks and answers, which is longer than the loop.
ghost use Rattle.std.specs.Prelude.{◌≡◌, map};
ghost use Rattle.std.proofs.lemmas.List.Edits.{sets};
ghost use Rattle.lists.specs.Lists.{upto};
ghost use Rattle.paper.specs.Map.{link_to, source_port, target_port};
ghost use Rattle.neighbours.specs.Tabled.{Tabled};

use super::Listing;
use stepmap::access::{link_from, link_in, link_out, link_to, num_inputs};
use stepmap::read::Sizes;

// Writes the output port of each link to `at.keys`; the nodes' first ports stand at `at.firsts`.
pub fn source_keys(b: &[u8], sizes: Sizes, area: &mut [u16], at: Listing)
    requires { Tabled b.now area.old sizes at }
    ensures { area.new ≡ sets area.old at.keys (map (source_port b.now) (upto sizes.links)) }
{
    for k in 0..sizes.links {
        let v = link_from(b, sizes.nodes, k);
        let key = usize::from(area[at.firsts + v]) + num_inputs(b, v) + link_out(b, sizes.nodes, k);
        area[at.keys + k] = key as u16;
    }
}

// Writes the input port of each link to `at.keys`.
pub fn target_keys(b: &[u8], sizes: Sizes, area: &mut [u16], at: Listing)
    requires { Tabled b.now area.old sizes at }
    ensures { area.new ≡ sets area.old at.keys (map (target_port b.now) (upto sizes.links)) }
{
    for k in 0..sizes.links {
        let v = link_to(b, sizes.nodes, k);
        let key = usize::from(area[at.firsts + v]) + link_in(b, sizes.nodes, k);
        area[at.keys + k] = key as u16;
    }
}

// Writes the node that each link ends at to `at.keys`.
pub fn target_nodes(b: &[u8], sizes: Sizes, area: &mut [u16], at: Listing)
    requires { Tabled b.now area.old sizes at }
    ensures { area.new ≡ sets area.old at.keys (map (link_to b.now) (upto sizes.links)) }
{
    for k in 0..sizes.links {
        area[at.keys + k] = link_to(b, sizes.nodes, k) as u16;
    }
}
