// The tables that preparing wrote, held against those of the Rust.
ghost use Rattle.std.specs.Prelude.{◌≡◌, true, ◌≤◌};
ghost use Rattle.tables.specs.Placed.{Few, LaidOut};
ghost use Rattle.tallying.specs.Kind.{table_number};
ghost use Rattle.recorded.specs.Sections.{Between, SameSection, UsedAt, used_in};

use crate::comparing::is_list;
use crate::line_parts::Part;
use stepmap::read::read_map;
use tables::{Layout, lay_out};
use tallying::kind::{Kind, Table};

// The used part of a table's section, in an area of k lines: of the two lists as many entries are used as there are links and lines,
// of the line starts k + 1.
fn section(table: Table, at: Layout, k: usize) -> Part
    requires { Few at.sizes × LaidOut at.sizes at × (k ≤ 65535) }
    ensures { UsedAt result (used_in at k (table_number table)) }
{
    let (from, count) = match table {
        Table::Order => (at.order, at.sizes.nodes),
        Table::Positions => (at.positions, at.sizes.nodes),
        Table::NodeStarts => (at.begins, at.sizes.nodes + 1),
        Table::LinesOfNodes => (at.lines, at.sizes.links + k),
        Table::LineStarts => (at.starts, k + 1),
        Table::NodesOfLines => (at.along, at.sizes.links + k),
    };
    Part {
        from,
        to: from + count,
    }
}

// Whether a part of the area is the line's list.
fn is_part(area: &[u16], part: Part, words: &[u16]) -> bool
    requires { part.from ≤ part.to }
    ensures { result ≡ true → Between part.from part.to words.now area.now }
{
    if part.to > area.len() || words.is_empty() {
        return false;
    }
    is_list(words, 1, &area[part.from..part.to])
}

// Whether the line's list is what is used of the table's section.
pub fn same_table(table: Table, words: &[u16], map: &[u8], area: &[u16]) -> bool
    ensures { result ≡ true → SameSection (table_number table) words.now map.now area.now }
{
    let Ok(sizes) = read_map(map) else {
        return false;
    };
    if area.is_empty() {
        return false;
    }
    let part = section(table, lay_out(sizes), usize::from(area[0]));
    is_part(area, part, words)
}

// The same of the table with a number; false where no table has it.
pub fn same_section(kind: usize, words: &[u16], map: &[u8], area: &[u16]) -> bool
    ensures { result ≡ true → SameSection kind words.now map.now area.now }
{
    match Kind::numbered(kind) {
        Some(Kind::Written(table)) => same_table(table, words, map, area),
        _ => false,
    }
}
