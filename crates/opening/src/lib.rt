// How every call but preparing opens: refusals 1, 2, 3, 4, 5 and 7 in their order, with the scratch set to 0 past 3.
#![tactic(auto)]

pub mod ends;

ghost use Rattle.std.specs.Prelude.{◌≡◌, [], ◌∷◌};
ghost use Rattle.paper.specs.Calls.{opening};
ghost use Rattle.paper.specs.Refusals.{answer, decide, rule3, rule45, rule7};
ghost use Rattle.refusals.specs.Said.{answer_of};
ghost use Rattle.opening.specs.Opened.{Laid, OpenLeft, PlacedLeft, Roomy, layout_of};

use acceptance::accepted;
use ends::clear_scratch;
use refusals::Refusal;
use stepmap::links::check_links;
use stepmap::read::read_map;
use tables::{Layout, lay_out};

// Tests the links and the tables where 1, 2 and 3 have passed: refusals 4, 5 and 7.
fn test_tables(b: &[u8], at: Layout, area: &[u16]) -> Result<Layout, Refusal>
    requires { Roomy b.now area.now at }
    ensures { answer_of result ≡ answer (decide (rule45 b.now ∷ rule7 b.now area.now ∷ [])) at }
{
    check_links(b, at.sizes.nodes, at.sizes.links)?;
    if !accepted(b, at, area) {
        return Err(Refusal::NotAccepted);
    }
    Ok(at)
}

// Opens a map that passes 1 and 2: refusal 3 leaves the area as it was, and all else leaves the scratch at 0. Testing reads no
// scratch, so it is set to 0 after the tests, at one place for all of their answers.
fn open_placed(b: &[u8], at: Layout, area: &mut [u16]) -> Result<Layout, Refusal>
    requires { Laid b.now at }
    ensures { PlacedLeft b.now area.old at result area.new }
{
    if area.len() < at.end {
        return Err(Refusal::NoRoom);
    }
    let tested = test_tables(b, at, area);
    clear_scratch(area, at);
    tested
}

// Opens any call but preparing and the view of a port's lines, on any map and any area: where the sections of the area stand, or refusals 1, 2, 3, 4,
// 5 and 7.
pub fn open(map: &[u8], area: &mut [u16]) -> Result<Layout, Refusal>
    ensures { OpenLeft map.now area.old result area.new }
{
    let sizes = read_map(map)?;
    let at = lay_out(sizes);
    open_placed(map, at, area)
}

// The same of a map that passes 1 and 2, where the area is lent to be read alone: it stands beside its twin, which has to write.
fn open_placed_shared(b: &[u8], at: Layout, area: &[u16]) -> Result<Layout, Refusal>
    requires { Laid b.now at }
    ensures { answer_of result
        ≡ answer (decide (rule3 b.now area.now ∷ rule45 b.now ∷ rule7 b.now area.now ∷ [])) at }
{
    if area.len() < at.end {
        return Err(Refusal::NoRoom);
    }
    test_tables(b, at, area)
}

// Opens the view of a port's lines, which writes nothing.
pub fn open_shared(map: &[u8], area: &[u16]) -> Result<Layout, Refusal>
    ensures { answer_of result ≡ answer (decide (opening map.now area.now)) (layout_of map.now) }
{
    let sizes = read_map(map)?;
    let at = lay_out(sizes);
    open_placed_shared(map, at, area)
}
