// The area as a value: the place of every section, made once for a map; and the lists of nodes and of lines as parts of the area.
#![tactic(auto)]

ghost use Rattle.std.specs.Prelude.{◌≡◌};
ghost use Rattle.tables.specs.Placed.{Few, LaidOut};
ghost use Rattle.tables.specs.Usable.{Spanned, entries_of};

use stepmap::read::Sizes;
use words::section::word_at;

// Where the sections of an area stand, one behind the other; the line count is the word before them all. `begins` tells where each node's
// lines begin among `lines`, and `starts` where each line's nodes start among `along`.
#[derive(Clone, Copy)]
pub struct Layout {
    pub sizes: Sizes,
    pub order: usize,
    pub positions: usize,
    pub begins: usize,
    pub lines: usize,
    pub starts: usize,
    pub along: usize,
    pub scratch: usize,
    pub end: usize,
}

// Lays the sections out for a map: each behind the one before it. No other function knows how long a section is.
pub fn lay_out(sizes: Sizes) -> Layout
    requires { Few sizes }
    ensures { LaidOut sizes result }
{
    let order = 1;
    let positions = order + sizes.nodes;
    let begins = positions + sizes.nodes;
    let lines = begins + (sizes.nodes + 1);
    let starts = lines + (2 * sizes.links + sizes.nodes);
    let along = starts + (sizes.links + sizes.nodes + 1);
    let scratch = along + (2 * sizes.links + sizes.nodes);
    let end = scratch + (4 * sizes.nodes + 4 * sizes.links + 2 * sizes.ports + 4);
    Layout {
        sizes,
        order,
        positions,
        begins,
        lines,
        starts,
        along,
        scratch,
        end,
    }
}

// List x of those whose entries stand at `at` and whose starts stand at `starts`: a part of the area between two starts. So a node's
// lines and a line's nodes are handed on.
pub fn entries(area: &[u16], starts: usize, at: usize, x: usize) -> &[u16]
    requires { Spanned area.now starts at x }
    ensures { result.now ≡ entries_of area.now starts at x }
{
    let from = at + word_at(area, starts, x);
    let to = at + word_at(area, starts, x + 1);
    &area[from..to]
}
