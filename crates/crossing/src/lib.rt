// How a lent area crosses: its words are read from the bytes into a room for the largest W, and put back after the call.
#![tactic(auto)]

ghost use Rattle.std.specs.Prelude.{◌≡◌, min, ◌/◌, length, take};
ghost use Rattle.std.proofs.lemmas.List.Edits.{sets};
ghost use Rattle.paper.specs.Words.{words_from};

use words::bytes::words_from;

// Room for the largest area: W is at most 31,751, which is said once for the twelve exports.
pub fn area_room() -> [u16; 31751]
    ensures { length result ≡ 31751 }
{
    [0u16; 31751]
}

// Reads an area's words into the room, and answers how many: all of them, or as many as any call uses.
pub fn read_area(area: &[u8], room: &mut [u16]) -> usize
    requires { length room.old ≡ 31751 }
    ensures { (result ≡ min (length area.now / 2) 31751)
        × (room.new ≡ sets room.old 0 (take 31751 (words_from area.now))) }
{
    let words = area.len() / 2;
    if 31751 < words {
        words_from(&area[0..63502], room);
        return 31751;
    }
    words_from(area, room);
    words
}
