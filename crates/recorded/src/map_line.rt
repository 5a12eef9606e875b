// A line with a map: N, L, and the fields of all nodes and links.
ghost use Rattle.std.specs.Prelude.{◌≤◌, length};

use crate::laying::lay_map;

// Lays the line's map from the first byte on, and answers how many bytes it has: none if the line is too short or the map too large.
pub fn lay_line(words: &[u16], map: &mut [u8]) -> usize
    ensures { result ≤ length map.old }
{
    if words.len() < 3 {
        return 0;
    }
    let n = usize::from(words[1]);
    let l = usize::from(words[2]);
    if n > 512 || l > 2048 {
        return 0;
    }
    let end = 3 + 2 * n + 4 * l;
    if end > words.len() {
        return 0;
    }
    let size = 4 * n + 8 * l + 12;
    if size > map.len() {
        return 0;
    }
    lay_map(&words[3..end], n, l, &mut map[..size]);
    size
}
