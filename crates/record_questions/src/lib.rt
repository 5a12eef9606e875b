// Preparing and the questions about records, asked again: whether each answer is the recorded one.
#![tactic(auto)]

ghost use Rattle.std.specs.Prelude.{true, ◌≡◌, ◌≤◌, length, drop};
ghost use Rattle.lists.specs.Lists.{same};
ghost use Rattle.paper.specs.Calls.{area_after, nodes_in_intervals, prepare as prepared, try_extend_intervals};
ghost use Rattle.recorded.specs.Answers.{count_words, with_list, written_words};
ghost use Rattle.recorded.specs.Questions.{same_extension, same_nodes, same_prepared, same_record_check};

use convex::line_convex_checker::{
    is_convex_by_intervals, nodes_in_intervals, try_extend_intervals,
};
use convex::prepare::prepare;
use line_checker::room::{copy_out, record_room};
use recorded::held::{is_line_answer, is_nodes_answer, is_prepared, is_written_answer};
use recorded::line_parts::{Part, list_at};

// Whether preparing the map answers the line's rest.
pub fn prepares_to(map: &[u8], area: &mut [u16], words: &[u16]) -> bool
    ensures value { result ≡ same_prepared words.now map.now area.old }
    ensures cleared { result ≡ true → area.new ≡ (prepared map.now area.old).area }
{
    if words.len() < 3 {
        return false;
    }
    let at = 3 + 2 * usize::from(words[1]) + 4 * usize::from(words[2]);
    if at > words.len() {
        return false;
    }
    let answer = prepare(map, area);
    is_prepared(words, at, answer)
}

// Check by records: how many, and their words; the answer.
pub fn same_record_check(words: &[u16], map: &[u8], area: &mut [u16]) -> bool
    ensures value { result ≡ same_record_check words.now map.now area.old }
    ensures cleared { result ≡ true → area.new ≡ area_after map.now area.old }
{
    let records = list_at(words, 2);
    let Some(Part { from, to }) = records else {
        return false;
    };
    let count = usize::from(words[1]);
    let answer = is_convex_by_intervals(map, area, &words[from..to], count);
    is_line_answer(words, to, answer)
}

// Nodes in records, into a buffer: whether the rest is the answer, and all words of the buffer afterwards.
fn nodes_into(
    words: &[u16],
    at: usize,
    map: &[u8],
    area: &mut [u16],
    records: &[u16],
    count: usize,
    buffer: &mut [u16],
) -> bool
    requires { at ≤ length words.now }
    ensures value { result ≡ same (drop at words.now)
        (with_list
        (count_words (nodes_in_intervals map.now area.old records.now count buffer.old).answer)
        (nodes_in_intervals map.now area.old records.now count buffer.old).buffer) }
    ensures cleared { area.new ≡ area_after map.now area.old }
{
    let answer = nodes_in_intervals(map, area, records, count, buffer);
    is_nodes_answer(words, at, answer, buffer)
}

// Nodes in records: how many records, their words, and the buffer; the answer and the buffer.
pub fn same_nodes(words: &[u16], map: &[u8], area: &mut [u16]) -> bool
    ensures value { result ≡ same_nodes words.now map.now area.old }
    ensures cleared { result ≡ true → area.new ≡ area_after map.now area.old }
{
    let records = list_at(words, 2);
    let Some(Part { from, to }) = records else {
        return false;
    };
    let buffer = list_at(words, to);
    let Some(
        Part {
            from: start,
            to: end,
        },
    ) = buffer
    else {
        return false;
    };
    let size = end - start;
    if size > 7680 {
        return false;
    }
    let mut room = record_room();
    copy_out(&words[start..end], &mut room, size);
    nodes_into(
        words,
        end,
        map,
        area,
        &words[from..to],
        usize::from(words[1]),
        &mut room[0..size],
    )
}

// Extension in the records' own buffer: whether the rest is the answer, and all words of the buffer afterwards.
fn extends_to(
    words: &[u16],
    at: usize,
    map: &[u8],
    area: &mut [u16],
    buffer: &mut [u16],
    count: usize,
    node: usize,
) -> bool
    requires { at ≤ length words.now }
    ensures value { result ≡ same (drop at words.now)
        (with_list
        (written_words (try_extend_intervals map.now area.old buffer.old count node).answer)
        (try_extend_intervals map.now area.old buffer.old count node).buffer) }
    ensures cleared { area.new ≡ area_after map.now area.old }
{
    let answer = try_extend_intervals(map, area, buffer, count, node);
    is_written_answer(words, at, answer, buffer)
}

// Extension: how many records, the node, and the buffer that the records begin; the answer and the buffer.
pub fn same_extension(words: &[u16], map: &[u8], area: &mut [u16]) -> bool
    ensures value { result ≡ same_extension words.now map.now area.old }
    ensures cleared { result ≡ true → area.new ≡ area_after map.now area.old }
{
    let buffer = list_at(words, 3);
    let Some(Part { from, to }) = buffer else {
        return false;
    };
    let size = to - from;
    if size > 7680 {
        return false;
    }
    let mut room = record_room();
    copy_out(&words[from..to], &mut room, size);
    extends_to(
        words,
        to,
        map,
        area,
        &mut room[0..size],
        usize::from(words[1]),
        usize::from(words[2]),
    )
}
