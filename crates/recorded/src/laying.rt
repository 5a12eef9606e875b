// The map writer: a step map's bytes from its fields.
ghost use Rattle.std.specs.Prelude.{◌≡◌, ◌+◌, ◌*◌, ◌≤◌, length};
ghost use Rattle.recorded.specs.Laid.{map_bytes};

use text::printer::put_text;
use words::bytes::put_words;
use words::field::put_field;

// Writes the map of n nodes and l links with these fields: their records as they stand, the trailer's four fields, and the mark.
pub fn lay_map(fields: &[u16], n: usize, l: usize, map: &mut [u8])
    requires { (n ≤ 512) × (l ≤ 2048) × (length fields.now ≡ 2 * n + 4 * l) × (length map.old ≡ 4 * n + 8 * l + 12) }
    ensures { map.new ≡ map_bytes fields.now n l }
{
    let links = 8 * l;
    let trailer = 4 * n + links;
    put_words(fields, map);
    put_field(map, trailer, trailer as u16);
    put_field(map, trailer + 2, n as u16);
    put_field(map, trailer + 4, links as u16);
    put_field(map, trailer + 6, l as u16);
    put_text(map, trailer + 8, b"PGT1");
}
