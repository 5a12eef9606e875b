// What the lines are laid with, spread out in the scratch: the links by input port, the output port of each link, where each node's
// outgoing links start; and in its section where each node's list will start.
ghost use Rattle.std.specs.Prelude.{◌≡◌, map, ◌+◌};
ghost use Rattle.std.proofs.lemmas.List.Edits.{sets};
ghost use Rattle.lists.specs.Lists.{upto};
ghost use Rattle.line_tables.specs.Widths.{Starting, Spaced, Widths, links_from, width_at, widths_before};
ghost use Rattle.line_tables.specs.Laying.{Laying};
ghost use Rattle.line_tables.specs.Spreading.{Spreads};

use super::frontier::new_lines;
use super::room::Room;
use neighbours::Listing;
use neighbours::by_port::{links_by_input, links_start};
use neighbours::keys::source_keys;
use tables::Layout;
use words::section::word_at;

// Writes where the links of each of n nodes start, and where the last one's end, to `into`.
fn out_starts(area: &mut [u16], n: usize, links: Listing, into: usize)
    requires { Starting area.old n links into }
    ensures { area.new ≡ sets area.old into (map (links_from area.old links) (upto (n + 1))) }
{
    for v in 0..=n {
        area[into + v] = links_start(area, links, v) as u16;
    }
}

// How many lines node v has.
fn width(area: &[u16], links: Listing, outs: usize, v: usize) -> usize
    requires { Spaced area.now links outs v }
    ensures { result ≡ width_at area.now links outs v }
{
    let taken = links_start(area, links, v + 1) - links_start(area, links, v);
    let outgoing = word_at(area, outs, v + 1) - word_at(area, outs, v);
    taken + new_lines(taken, outgoing)
}

// Writes where the list of each of n nodes starts, and where the last one ends, to `into`.
fn node_starts(area: &mut [u16], n: usize, links: Listing, outs: usize, into: usize)
    requires { Widths area.old n links outs into }
    ensures { area.new ≡ sets area.old into (map (widths_before area.old links outs) (upto (n + 1))) }
{
    let mut total = 0;
    for v in 0..n {
        area[into + v] = total as u16;
        total += width(area, links, outs, v);
    }
    area[into + n] = total as u16;
}

// Spreads out what the lines of an ordered map are laid with.
pub fn spread(b: &[u8], at: Layout, area: &mut [u16], room: Room)
    requires { Laying b.now area.old at room }
    ensures { Spreads b.now area.old area.new at room }
{
    let n = at.sizes.nodes;
    let outputs = Listing {
        firsts: room.firsts,
        keys: room.ports,
        starts: room.tops,
        sorted: room.out_sorted,
        end: room.outs,
    };
    let inputs = Listing {
        firsts: room.firsts,
        keys: room.ports,
        starts: room.in_starts,
        sorted: room.in_sorted,
        end: room.stack,
    };
    links_by_input(b, at.sizes, area, inputs);
    source_keys(b, at.sizes, area, inputs);
    out_starts(area, n, outputs, room.outs);
    node_starts(area, n, inputs, room.outs, at.begins);
}
