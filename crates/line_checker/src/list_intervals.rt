// Translated from src/algorithms/convex/line_convex_checker.rs of portgraph (88172a3c8e, Apache-2.0, see NOTICE), and changed:
// `get_intervals_from_nodes` refuses what 01 refuses, and writes its records to a lent buffer, of words or of bytes.
ghost use Rattle.std.specs.Prelude.{[], ◌∷◌, ◌+◌, ◌*◌, ◌≤◌, length};
ghost use Rattle.paper.specs.Calls.{needed, said, words_of};
ghost use Rattle.paper.specs.Intervals.{intervals};
ghost use Rattle.paper.specs.Refusals.{rule9, rule10, rule11, whole_records};
ghost use Rattle.paper.specs.Words.{words_from};
ghost use Rattle.answers.specs.Said.{written_said};
ghost use Rattle.tables.specs.Answered.{AnsweredInto, AnsweredBytes};
ghost use Rattle.tables.specs.Usable.{Usable};
ghost use Rattle.line_checker.specs.InRoom.{InRoom};

use super::room::{copy_out, record_room};
use intervals::get_intervals;
use refusals::Refusal;
use tables::Layout;
use take_in::take_in;
use words::bytes::put_words;
use words::entries::Entries;

// The intervals of a list, in a room: refusals 9, 10, and no records for no nodes.
fn find_intervals<E: Entries + Copy>(
    b: &[u8],
    at: Layout,
    area: &mut [u16],
    list: E,
    room: &mut [u16],
) -> Result<Option<usize>, Refusal>
    requires usable { Usable b.now area.old at }
    requires links_in_bounds { 3 * (at.sizes.nodes + at.sizes.links) ≤ length room.old }
    ensures { InRoom said words_of at area.old area.new (written_said result)
        (rule9 b.now (E.entries list) ∷ rule10 (E.entries list) ∷ [])
        (intervals b.now area.old (E.entries list)) room.new }
{
    if list.count() == 0 {
        return Ok(Some(0));
    }
    let count = take_in(list, at.sizes.nodes, area, at.scratch)?;
    Ok(get_intervals(b, at, area, count, room))
}

// The intervals of a list: refusals 9, 10, 11.
pub fn intervals_of_list<E: Entries + Copy>(
    b: &[u8],
    at: Layout,
    area: &mut [u16],
    list: E,
    buffer: &mut [u16],
) -> Result<Option<usize>, Refusal>
    requires { Usable b.now area.old at }
    ensures { AnsweredInto at area.old area.new (written_said result)
        (rule9 b.now (E.entries list) ∷ rule10 (E.entries list)
        ∷ rule11 (whole_records buffer.old) (needed (intervals b.now area.old (E.entries list))) ∷ [])
        (said (intervals b.now area.old (E.entries list)))
        buffer.old buffer.new
        (words_of (intervals b.now area.old (E.entries list))) }
{
    let mut room = record_room();
    let Some(made) = find_intervals(b, at, area, list, &mut room)? else {
        return Ok(None);
    };
    if buffer.len() / 3 < made {
        return Err(Refusal::TooLong(made));
    }
    copy_out(&room, buffer, 3 * made);
    Ok(Some(made))
}

// The same into a buffer of bytes.
pub fn intervals_of_list_bytes<E: Entries + Copy>(
    b: &[u8],
    at: Layout,
    area: &mut [u16],
    list: E,
    buffer: &mut [u8],
) -> Result<Option<usize>, Refusal>
    requires { Usable b.now area.old at }
    ensures { AnsweredBytes at area.old area.new (written_said result)
        (rule9 b.now (E.entries list) ∷ rule10 (E.entries list)
        ∷ rule11 (whole_records (words_from buffer.old))
        (needed (intervals b.now area.old (E.entries list))) ∷ [])
        (said (intervals b.now area.old (E.entries list)))
        buffer.old buffer.new
        (words_of (intervals b.now area.old (E.entries list))) }
{
    let mut room = record_room();
    let Some(made) = find_intervals(b, at, area, list, &mut room)? else {
        return Ok(None);
    };
    if buffer.len() / 2 / 3 < made {
        return Err(Refusal::TooLong(made));
    }
    put_words(&room[..3 * made], buffer);
    Ok(Some(made))
}
