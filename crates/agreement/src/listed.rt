// The lists of nodes and lines held against each other: a node lists a line as often as the line lists it.
ghost use Rattle.std.specs.Prelude.{◌≡◌, ◌+◌, ◌≤◌, length};
ghost use Rattle.std.proofs.lemmas.List.Edits.{sets};
ghost use Rattle.lists.proofs.Tests.{Says};
ghost use Rattle.groups.specs.Groups.{AtZero};
ghost use Rattle.agreement.specs.Lists.{ListsAgree, ListsRoom, line_numbers};
ghost use Rattle.agreement.specs.Tables.{Tables, entry_count};

use groups::{group_by, same_groups};
use tables::Layout;
use words::section::{fill, word_at};

// A word for each entry that the lists of a map may have. This size and the next two are said once for both tests.
pub fn entry_room() -> [u16; 4608]
    ensures { length result ≡ 4608 }
{
    [0u16; 4608]
}

// Room to sort that many entries by node.
pub fn sort_room() -> [u16; 9729]
    ensures { length result ≡ 9729 }
{
    [0u16; 9729]
}

// A counter for each line that a map may have, at 0.
pub fn counter_room() -> [u16; 2560]
    ensures { (length result ≡ 2560) × AtZero result }
{
    [0u16; 2560]
}

// Puts words into a room from `at` on.
pub fn put_in(room: &mut [u16], at: usize, words: &[u16])
    requires { at + length words.now ≤ length room.old }
    ensures { room.new ≡ sets room.old at words.now }
{
    room[at..at + words.len()].copy_from_slice(words);
}

// Writes, for each entry of the lines' nodes, the number of its line.
fn line_numbers(area: &[u16], at: Layout, k: usize, numbers: &mut [u16])
    requires tables { Tables area.now at k }
    requires k_in_bounds { entry_count at k ≤ length numbers.old }
    ensures { numbers.new ≡ sets numbers.old 0 (line_numbers area.now at k) }
{
    for x in 0..k {
        let from = word_at(area, at.starts, x);
        let to = word_at(area, at.starts, x + 1);
        fill(numbers, from, to - from, x as u16);
    }
}

// Whether the lists agree: the lines' entries, sorted by node, are compared with the nodes' own lists.
fn lists_agree_in(
    area: &[u16],
    at: Layout,
    k: usize,
    numbers: &mut [u16],
    room: &mut [u16],
    counters: &mut [u16],
) -> bool
    requires { ListsRoom area.now at k numbers.old room.old counters.old }
    ensures { Says result (ListsAgree area.now at k) }
{
    let count = at.sizes.links + k;
    let cuts = at.sizes.nodes + 1;
    let along = at.along;
    let along_end = along + count;
    let lines = at.lines;
    let lines_end = lines + count;
    let begins = at.begins;
    let begins_end = begins + cuts;
    let cuts_end = count + cuts;
    line_numbers(area, at, k, numbers);
    put_in(room, 0, &area[along..along_end]);
    group_by(room, count, at.sizes.nodes, &numbers[0..count]);
    same_groups(
        &area[lines..lines_end],
        &area[begins..begins_end],
        &room[0..count],
        &room[count..cuts_end],
        at.sizes.nodes,
        counters,
    )
}

// Whether each node lists each line as often as the line lists it.
pub fn lists_agree(area: &[u16], at: Layout, k: usize) -> bool
    requires { Tables area.now at k }
    ensures { Says result (ListsAgree area.now at k) }
{
    let mut numbers = entry_room();
    let mut room = sort_room();
    let mut counters = counter_room();
    lists_agree_in(area, at, k, &mut numbers, &mut room, &mut counters)
}
