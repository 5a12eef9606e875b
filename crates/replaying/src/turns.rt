// One line of the file replayed: a map is laid out and prepared, any other line is asked on the map that was laid out last.
ghost use Rattle.std.specs.Prelude.{◌≡◌, ◌%◌, ◌≤◌, length};
ghost use Rattle.replaying.specs.Checksum.{summed};

use crate::lent::{keep, mark_scratch, spoil};
use list_questions::{
    same_intervals, same_line_check, same_line_ports, same_order_check, same_order_ports,
    same_port_lines,
};
use record_questions::{prepares_to, same_extension, same_nodes, same_record_check};
use recorded::comparing::same_words;
use recorded::map_line::lay_line;
use recorded::sections::same_table;
use tallying::kind::{Kind, Question};
use text::reader::read_list;

// What a line came to.
#[derive(Clone, Copy)]
pub enum Outcome {
    // It is one of the head, which says nothing.
    Silent,
    // It could not be read, or its number is no kind's: it differs.
    Unread,
    // It is of a kind, and it agrees or not.
    Read(Kind, bool),
}

// What stands behind a line: how many bytes the last map has, the checksum so far, and what the line came to.
#[derive(Clone, Copy)]
pub struct Turn {
    pub size: usize,
    pub sum: usize,
    pub outcome: Outcome,
}

// Before the first line.
pub fn start() -> Turn {
    Turn {
        size: 0,
        sum: 0,
        outcome: Outcome::Silent,
    }
}

// Adds words to a checksum: each to 257 times what stands before it, modulo a prime, so that one changed number always shows.
fn add_words(before: usize, words: &[u16]) -> usize
    ensures { result ≡ summed (before % 4294967291) words.now }
{
    let mut sum: usize = before % 4294967291;
    for word in words {
        sum = (sum * 257 + usize::from(*word)) % 4294967291;
    }
    sum
}

// Asks a line's question.
fn ask(question: Question, words: &[u16], map: &[u8], area: &mut [u16]) -> bool {
    match question {
        Question::LineCheck => same_line_check(words, map, area),
        Question::OrderCheck => same_order_check(words, map, area),
        Question::RecordCheck => same_record_check(words, map, area),
        Question::Intervals => same_intervals(words, map, area),
        Question::Extension => same_extension(words, map, area),
        Question::Nodes => same_nodes(words, map, area),
        Question::PortLines => same_port_lines(words, map, area),
        Question::LinePorts => same_line_ports(words, map, area),
        Question::OrderPorts => same_order_ports(words, map, area),
    }
}

// Asks a line's question with a scratch that is not 0, and compares the whole area with what preparing left.
fn ask_again(
    question: Question,
    words: &[u16],
    map: &[u8],
    area: &mut [u16],
    kept: &[u16],
) -> bool {
    mark_scratch(map, area);
    ask(question, words, map, area) && same_words(area, kept)
}

// Prepares a line's map in an area that is marked, and keeps what it left.
fn prepare_again(words: &[u16], map: &[u8], area: &mut [u16], kept: &mut [u16]) -> bool {
    spoil(area);
    let answers = prepares_to(map, area, words);
    let stands = keep(map, area, kept);
    answers && stands
}

// Replays a line of a kind on a map of so many bytes, and answers how many its map has then, and whether the line agrees. A table is only looked at.
fn replay_kind(
    kind: Kind,
    words: &[u16],
    size: usize,
    map: &mut [u8],
    area: &mut [u16],
    kept: &mut [u16],
) -> (usize, bool)
    requires { size ≤ length map.old }
{
    match kind {
        Kind::Map => {
            let size = lay_line(words, map);
            (size, prepare_again(words, &map[..size], area, kept))
        }
        Kind::Written(table) => (size, same_table(table, words, &map[..size], area)),
        Kind::Asked(question) => (size, ask_again(question, words, &map[..size], area, kept)),
    }
}

// A line that could not be read: nothing else changes.
fn unread(before: Turn) -> Turn {
    Turn {
        outcome: Outcome::Unread,
        ..before
    }
}

// A line of the head.
fn passed_over(before: Turn) -> Turn {
    Turn {
        outcome: Outcome::Silent,
        ..before
    }
}

// Replays a line by its words, of which there is one at least.
fn replay_words(
    words: &[u16],
    before: Turn,
    map: &mut [u8],
    area: &mut [u16],
    kept: &mut [u16],
) -> Turn
    requires { 1 ≤ length words.now }
{
    let sum = add_words(before.sum, words);
    let Some(kind) = Kind::numbered(usize::from(words[0])) else {
        return Turn {
            sum,
            ..unread(before)
        };
    };
    if before.size > map.len() {
        return unread(before);
    }
    let (size, agrees) = replay_kind(kind, words, before.size, map, area, kept);
    Turn {
        size,
        sum,
        outcome: Outcome::Read(kind, agrees),
    }
}

// Replays a line.
pub fn replay_line(
    line: &[u8],
    before: Turn,
    words: &mut [u16],
    map: &mut [u8],
    area: &mut [u16],
    kept: &mut [u16],
) -> Turn {
    if line.is_empty() {
        return unread(before);
    }
    if line[0] == b'#' {
        return passed_over(before);
    }
    if line.len() / 2 >= words.len() {
        return unread(before);
    }
    let Some(count) = read_list(line, words) else {
        return unread(before);
    };
    if count == 0 {
        return unread(before);
    }
    replay_words(&words[..count], before, map, area, kept)
}
