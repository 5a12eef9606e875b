// The positions along the lines.
ghost use Rattle.std.specs.Prelude.{map, length, get_or};
ghost use Rattle.lists.specs.Lists.{Rising};
ghost use Rattle.lists.proofs.Tests.{Says};
ghost use Rattle.groups.specs.Groups.{Known};
ghost use Rattle.agreement.specs.Tables.{Rise, Tables};

use tables::Layout;
use words::section::word_at;

// Whether the positions strictly rise along a line's nodes.
fn rises_along(line: &[u16], positions: &[u16]) -> bool
    requires { Known (length positions.now) line.now }
    ensures { Says result (Rising (map (λ v. get_or positions.now v 0) line.now)) }
{
    for i in 1..line.len() {
        let u = usize::from(line[i - 1]);
        let v = usize::from(line[i]);
        if positions[u] >= positions[v] {
            return false;
        }
    }
    true
}

// Whether the positions strictly rise along each of the k lines.
pub fn lines_rise(area: &[u16], at: Layout, k: usize) -> bool
    requires { Tables area.now at k }
    ensures { Says result (Rise area.now at k) }
{
    let positions = at.positions;
    let positions_end = positions + at.sizes.nodes;
    for x in 0..k {
        let from = at.along + word_at(area, at.starts, x);
        let to = at.along + word_at(area, at.starts, x + 1);
        if !rises_along(&area[from..to], &area[positions..positions_end]) {
            return false;
        }
    }
    true
}
