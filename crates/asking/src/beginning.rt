// How the output begins: one line that is all of it, or the first line, after which come the lists.
ghost use Rattle.std.specs.Prelude.{◌≤◌, length};
ghost use Rattle.asking.specs.Begun.{Begun};

use convex::prepare::prepare;
use stepmap::read::{link_count, node_count};
use text::printer::{put_first, put_refused_line};
use wording::put_unprepared;

// What was put, as where it ends: the whole output, or its first line. Both are answers of the same rank, so it is no Result.
#[derive(Clone, Copy)]
pub enum Beginning {
    Whole(usize),
    First(usize),
}

// Prepares the area for the map. The map's length comes first, then its refusal, then the input's length.
pub fn begin(map: &[u8], input: &[u8], area: &mut [u16], out: &mut [u8]) -> Beginning
    requires in_bounds { 31751 ≤ length area.old }
    requires in_bounds_2 { 81 ≤ length out.old }
    ensures { Begun map.now input.now out.old out.new area.new result }
{
    let map_is_long = map.len() > 65000;
    if map_is_long {
        return Beginning::Whole(put_refused_line(out, 0, 2, 0));
    }
    let count = match prepare(map, area) {
        Ok(count) => count,
        Err(x) => return Beginning::Whole(put_unprepared(out, Err(x))),
    };
    if input.len() > 60000 {
        return Beginning::Whole(put_refused_line(out, 0, 15, 0));
    }
    let n = node_count(map);
    let l = link_count(map);
    Beginning::First(put_first(out, 0, n, l, count))
}
