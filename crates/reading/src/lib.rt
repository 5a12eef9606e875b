// Reading into a room of fixed size: a map's file, an input, a list of cases.
#![tactic(auto)]

ghost use Rattle.std.specs.Prelude.{◌≡◌, ◌≤◌, length, take, IfOk, IfSome};

use std::io;
use std::io::Read;

// Reads until the room is full or there is no more, and answers how many bytes came. They stand at the room's start, and are the first that
// there were to read.
pub fn read_full<R: Read>(from: &mut R, room: &mut [u8]) -> io::Result<usize>
    ensures within { IfOk result (λ n. n ≤ length room.new) }
    ensures first { IfOk result (λ n. IfSome (R.remaining from.old) (λ xs. take n room.new ≡ take (length room.new) xs)) }
{
    let mut at = 0;
    // Each turn goes on behind what came, so no range counts the places.
    while at < room.len() {
        let count = from.read(&mut room[at..])?;
        if count == 0 {
            break;
        }
        at += count;
    }
    Ok(at)
}
