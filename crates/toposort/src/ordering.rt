// The order of any map's nodes in any area: refusals 1 to 6 in their order, with the scratch laid out for the sort and the queue.
ghost use Rattle.std.specs.Prelude.{[], ◌∷◌};
ghost use Rattle.paper.specs.Area.{cleared};
ghost use Rattle.paper.specs.Refusals.{decide, on_refusal, rule3, rule45, rule6};
ghost use Rattle.stepmap.specs.Formed.{ReadWell};
ghost use Rattle.toposort.specs.Laid.{Left, OrderLeft, Ready};

use super::toposort;
use neighbours::{Listing, lay_outgoing};
use refusals::Refusal;
use stepmap::links::check_links;
use stepmap::read::{Sizes, read_map};
use tables::{Layout, lay_out};
use words::section::fill;

// What ordering a map leaves: where the sections stand, and in the scratch the links by output port.
#[derive(Clone, Copy)]
pub struct Ordered {
    pub at: Layout,
    pub links: Listing,
}

// Orders a map that passes 1 to 5; after 6 the words are 0 again.
fn order_sound(b: &[u8], at: Layout, area: &mut [u16]) -> Result<Ordered, Refusal>
    requires { Ready b.now area.old at }
    ensures { Left b.now area.old (cleared b.now area.old) (rule6 b.now) result area.new }
{
    let links = lay_outgoing(b, at.sizes, area, at.scratch);
    match toposort(b, at, area, links) {
        Ok(()) => Ok(Ordered { at, links }),
        Err(x) => {
            fill(area, 0, at.end, 0);
            Err(x)
        }
    }
}

// Orders a map that passes 1 and 2: refusal 3 leaves the area as it was, and all others leave the words of the map at 0.
fn order_sized(b: &[u8], sizes: Sizes, area: &mut [u16]) -> Result<Ordered, Refusal>
    requires { ReadWell b.now sizes.nodes sizes.links sizes.ports }
    ensures { Left b.now (cleared b.now area.old)
        (on_refusal (rule3 b.now area.old) area.old (cleared b.now area.old))
        (decide (rule3 b.now area.old ∷ rule45 b.now ∷ rule6 b.now ∷ [])) result area.new }
{
    let at = lay_out(sizes);
    if area.len() < at.end {
        return Err(Refusal::NoRoom);
    }
    fill(area, 0, at.end, 0);
    check_links(b, sizes.nodes, sizes.links)?;
    order_sound(b, at, area)
}

// Orders any map in any area: refusals 1 to 6 in their order, or the order laid into the area.
pub fn order_map(b: &[u8], area: &mut [u16]) -> Result<Ordered, Refusal>
    ensures { OrderLeft b.now area.old result area.new }
{
    let sizes = read_map(b)?;
    order_sized(b, sizes, area)
}
