// Translated from `extend_line_ends_frontier` of src/algorithms/convex/line_convex_checker.rs of portgraph (88172a3c8e, Apache-2.0, see
// NOTICE), and changed: the frontier's map from ports to lines is a stack for each port in the scratch, where the port has as many
// words as links, and the closure is a function on the lent area.
ghost use Rattle.std.specs.Prelude.{◌≡◌, ◌+◌, ◌-◌, ◌≤◌, ◌<◌, max, suc, length, get_or, set};
ghost use Rattle.std.proofs.lemmas.List.Edits.{sets};
ghost use Rattle.lists.specs.Lists.{from};
ghost use Rattle.paper.specs.Lines.{new_lines};
ghost use Rattle.line_tables.specs.Steps.{Popping, Pushing, pushed, TakingLine, TakingLines, line_taken, taken_after, position_met, position_after, PushingLine, PushingLines, line_pushed, pushed_after};

use super::room::Room;
use stepmap::access::link_from;
use tables::Layout;
use words::section::word_at;

// Takes the line that was pushed last at a port.
fn pop_frontier(area: &mut [u16], room: Room, port: usize) -> u16
    requires { Popping area.old room port }
    ensures { (result ≡ get_or area.old (room.stack + (get_or area.old (room.tops + port) 0 - 1)) 0)
        × (area.new ≡ set area.old (room.tops + port) (get_or area.old (room.tops + port) 0 - 1)) }
{
    let top = area[room.tops + port] - 1;
    area[room.tops + port] = top;
    area[room.stack + usize::from(top)]
}

// Pushes a line at a port.
fn push_frontier(area: &mut [u16], room: Room, port: usize, line: u16)
    requires { Pushing area.old room port }
    ensures { area.new ≡ pushed area.old room port line }
{
    let top = area[room.tops + port];
    area[room.stack + usize::from(top)] = line;
    area[room.tops + port] = top + 1;
}

// A position, or 1 above the one met if that is higher.
fn above(position: u16, met: u16) -> u16
    requires { met < 65535 }
    ensures { result ≡ max position (suc met) }
{
    position.max(met + 1)
}

// Takes the line of one incoming link; answers the position so far.
fn take_line(
    b: &[u8],
    at: Layout,
    area: &mut [u16],
    room: Room,
    place: usize,
    to: usize,
    position: u16,
) -> u16
    requires { TakingLine b.now area.old at room place to }
    ensures { (result ≡ position_met b.now area.old at room place position)
        × (area.new ≡ line_taken area.old room place to) }
{
    let k = word_at(area, room.in_sorted, place);
    let port = word_at(area, room.ports, k);
    let met = area[at.positions + link_from(b, at.sizes.nodes, k)];
    let line = pop_frontier(area, room, port);
    area[to] = line;
    above(position, met)
}

// Takes a line for each of the incoming links from place `first` on, into the words from `list` on; answers the position.
pub fn take_lines(
    b: &[u8],
    at: Layout,
    area: &mut [u16],
    room: Room,
    first: usize,
    list: usize,
    incoming: usize,
) -> u16
    requires { TakingLines b.now area.old at room first list incoming }
    ensures { (result ≡ position_after b.now area.old at room first list incoming)
        × (area.new ≡ taken_after area.old room first list incoming) }
{
    let mut position: u16 = 0;
    for taken in 0..incoming {
        position = take_line(b, at, area, room, first + taken, list + taken, position);
    }
    position
}

// Pushes the line at `here` for one outgoing link.
fn push_line(area: &mut [u16], room: Room, place: usize, here: usize)
    requires { PushingLine area.old room place here }
    ensures { area.new ≡ line_pushed area.old room place here }
{
    let k = word_at(area, room.out_sorted, place);
    let port = word_at(area, room.ports, k);
    let line = area[here];
    push_frontier(area, room, port, line);
}

// Pushes a line for each of the outgoing links from place `first` on: the words from `list` on, in turn.
pub fn push_lines(area: &mut [u16], room: Room, first: usize, list: usize, outgoing: usize)
    requires { PushingLines area.old room first list outgoing }
    ensures { area.new ≡ pushed_after area.old room first list outgoing }
{
    for pushed in 0..outgoing {
        push_line(area, room, first + pushed, list + pushed);
    }
}

// How many new lines a node gets that has taken some.
pub fn new_lines(taken: usize, outgoing: usize) -> usize
    ensures { result ≡ new_lines taken outgoing }
{
    if taken < outgoing {
        outgoing - taken
    } else if taken == 0 {
        1
    } else {
        0
    }
}

// Writes `count` new lines, numbered from `first`, to the words from `at` on.
pub fn create_new_lines(area: &mut [u16], at: usize, count: usize, first: usize)
    requires { (at + count ≤ length area.old) × (first + count ≤ 65536) }
    ensures { area.new ≡ sets area.old at (from first count) }
{
    for made in 0..count {
        area[at + made] = (first + made) as u16;
    }
}
