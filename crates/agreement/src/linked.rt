// The links held against the neighbours on the lines: as many links run from one node to another as the other stands next on lines.
ghost use Rattle.std.specs.Prelude.{◌≡◌, ◌≤◌, length};
ghost use Rattle.std.proofs.lemmas.List.Edits.{sets};
ghost use Rattle.lists.proofs.Tests.{Says};
ghost use Rattle.agreement.specs.Lists.{Linked, LinksAgree, LinksRoom, backs, fronts, sources, targets};
ghost use Rattle.agreement.specs.Tables.{Tables};

use super::listed::{counter_room, entry_room, put_in, sort_room};
use groups::{group_by, same_groups};
use stepmap::access::{link_from, link_to};
use stepmap::read::Sizes;
use tables::Layout;
use words::section::word_at;

// Writes the node that each link starts at, and the node that it ends at.
fn link_ends(b: &[u8], sizes: Sizes, froms: &mut [u16], tos: &mut [u16])
    requires linked { Linked b.now sizes }
    requires links_in_bounds { (sizes.links ≤ length froms.old) × (sizes.links ≤ length tos.old) }
    ensures { (froms.new ≡ sets froms.old 0 (sources b.now sizes.links))
        × (tos.new ≡ sets tos.old 0 (targets b.now sizes.links)) }
{
    for k in 0..sizes.links {
        froms[k] = link_from(b, sizes.nodes, k) as u16;
        tos[k] = link_to(b, sizes.nodes, k) as u16;
    }
}

// Writes each node of a line that has a next one, line by line, and that next one. Each line before has dropped one.
fn neighbours(area: &[u16], at: Layout, k: usize, froms: &mut [u16], tos: &mut [u16])
    requires tables { Tables area.now at k }
    requires links_in_bounds { (at.sizes.links ≤ length froms.old) × (at.sizes.links ≤ length tos.old) }
    ensures { (froms.new ≡ sets froms.old 0 (fronts area.now at k))
        × (tos.new ≡ sets tos.old 0 (backs area.now at k)) }
{
    for x in 0..k {
        let from = word_at(area, at.starts, x);
        let to = word_at(area, at.starts, x + 1);
        let first = at.along + from;
        let second = first + 1;
        let end = at.along + to;
        let last = end - 1;
        put_in(froms, from - x, &area[first..last]);
        put_in(tos, from - x, &area[second..end]);
    }
}

// Whether links and neighbours agree, both sorted by the node that they start at.
fn links_agree_in(
    b: &[u8],
    at: Layout,
    area: &[u16],
    k: usize,
    links: &mut [u16],
    ends: &mut [u16],
    pairs: &mut [u16],
    nexts: &mut [u16],
    counters: &mut [u16],
) -> bool
    requires { LinksRoom b.now area.now at k links.old ends.old pairs.old nexts.old counters.old }
    ensures { Says result (LinksAgree b.now area.now at k) }
{
    let nodes = at.sizes.nodes;
    let count = at.sizes.links;
    let cuts_end = count + (nodes + 1);
    link_ends(b, at.sizes, links, ends);
    neighbours(area, at, k, pairs, nexts);
    group_by(links, count, nodes, &ends[0..count]);
    group_by(pairs, count, nodes, &nexts[0..count]);
    same_groups(
        &links[0..count],
        &links[count..cuts_end],
        &pairs[0..count],
        &pairs[count..cuts_end],
        nodes,
        counters,
    )
}

// Whether as many links run from one node to another as there are lines on which the other comes right after it.
pub fn links_agree(b: &[u8], at: Layout, area: &[u16], k: usize) -> bool
    requires linked { Linked b.now at.sizes }
    requires tables { Tables area.now at k }
    ensures { Says result (LinksAgree b.now area.now at k) }
{
    let mut links = sort_room();
    let mut ends = entry_room();
    let mut pairs = sort_room();
    let mut nexts = entry_room();
    let mut counters = counter_room();
    links_agree_in(
        b,
        at,
        area,
        k,
        &mut links,
        &mut ends,
        &mut pairs,
        &mut nexts,
        &mut counters,
    )
}
