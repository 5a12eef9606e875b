// The acceptance test of the tables that stand in a lent area: refusal 7.
#![tactic(auto)]

pub mod entries;
pub mod lines;
pub mod order;

ghost use Rattle.std.specs.Prelude.{◌≡◌};
ghost use Rattle.paper.specs.Accepted.{accepted as accepted_tables};
ghost use Rattle.acceptance.specs.Testable.{Testable};

use agreement::linked::links_agree;
use agreement::listed::lists_agree;
use entries::tables_known;
use lines::lines_rise;
use order::order_forward;
use tables::Layout;

// Whether the tables in the area are accepted for a map; any words may stand there. It reads what is in use alone.
pub fn accepted(b: &[u8], at: Layout, area: &[u16]) -> bool
    requires { Testable b.now area.now at }
    ensures { result ≡ accepted_tables b.now area.now }
{
    let k = usize::from(area[0]);
    if k > at.sizes.links + at.sizes.nodes {
        return false;
    }
    if !tables_known(area, at, k) {
        return false;
    }
    if !order_forward(b, at, area) {
        return false;
    }
    if !lines_rise(area, at, k) {
        return false;
    }
    if !lists_agree(area, at, k) {
        return false;
    }
    links_agree(b, at, area, k)
}
