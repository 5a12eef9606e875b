// Answers held against the rest of a line: case, values, number and place, as the exports tell them, and the words of a buffer or a view.
ghost use Rattle.std.specs.Prelude.{◌≡◌, ◌≤◌, length, drop};
ghost use Rattle.lists.specs.Lists.{same};
ghost use Rattle.refusals.specs.Said.{answer_of};
ghost use Rattle.answers.specs.Said.{line_said, topo_said, written_said};
ghost use Rattle.recorded.specs.Answers.{count_words, line_words, order_words, pair_words, with_list, written_words};

use crate::comparing::{is_told, is_told_with};
use answers::Verdict;
use refusals::Refusal;
use telling::{tell_count, tell_line, tell_order, tell_port, tell_written};

// Whether the rest is what preparing answers.
pub fn is_prepared(words: &[u16], at: usize, answer: Result<usize, Refusal>) -> bool
    requires { at ≤ length words.now }
    ensures { result ≡ same (drop at words.now) (count_words (answer_of answer)) }
{
    let mut count: u64 = 0;
    let mut number: u64 = 0;
    let mut place: u64 = 0;
    let case = tell_count(answer, &mut count, &mut number, &mut place);
    let told = [case, count, number, place];
    is_told(words, at, &told)
}

// Whether the rest is what a line check or a check by records answers.
pub fn is_line_answer(words: &[u16], at: usize, answer: Result<Verdict, Refusal>) -> bool
    requires { at ≤ length words.now }
    ensures { result ≡ same (drop at words.now) (line_words (line_said answer)) }
{
    let mut count: u64 = 0;
    let mut number: u64 = 0;
    let mut place: u64 = 0;
    let case = tell_line(answer, &mut count, &mut number, &mut place);
    let told = [case, count, number, place];
    is_told(words, at, &told)
}

// Whether the rest is what an order check answers.
pub fn is_order_answer(words: &[u16], at: usize, answer: Result<bool, Refusal>) -> bool
    requires { at ≤ length words.now }
    ensures { result ≡ same (drop at words.now) (order_words (topo_said answer)) }
{
    let mut number: u64 = 0;
    let mut place: u64 = 0;
    let case = tell_order(answer, &mut number, &mut place);
    let told = [case, number, place];
    is_told(words, at, &told)
}

// Whether the rest is what intervals or an extension answer, and all words of the buffer.
pub fn is_written_answer(
    words: &[u16],
    at: usize,
    answer: Result<Option<usize>, Refusal>,
    buffer: &[u16],
) -> bool
    requires { at ≤ length words.now }
    ensures { result ≡ same (drop at words.now) (with_list (written_words (written_said answer)) buffer.now) }
{
    let mut count: u64 = 0;
    let mut number: u64 = 0;
    let mut place: u64 = 0;
    let case = tell_written(answer, &mut count, &mut number, &mut place);
    let told = [case, count, number, place];
    is_told_with(words, at, &told, buffer)
}

// Whether the rest is what nodes in records answer, and all words of the buffer.
pub fn is_nodes_answer(
    words: &[u16],
    at: usize,
    answer: Result<usize, Refusal>,
    buffer: &[u16],
) -> bool
    requires { at ≤ length words.now }
    ensures { result ≡ same (drop at words.now) (with_list (count_words (answer_of answer)) buffer.now) }
{
    let mut count: u64 = 0;
    let mut number: u64 = 0;
    let mut place: u64 = 0;
    let case = tell_count(answer, &mut count, &mut number, &mut place);
    let told = [case, count, number, place];
    is_told_with(words, at, &told, buffer)
}

// Whether the rest is what lines at a port answer, and the lines themselves.
pub fn is_port_answer(
    words: &[u16],
    at: usize,
    answer: Result<(usize, usize), Refusal>,
    lines: &[u16],
) -> bool
    requires { at ≤ length words.now }
    ensures { result ≡ same (drop at words.now) (with_list (pair_words (answer_of answer)) lines.now) }
{
    let mut first: u64 = 0;
    let mut count: u64 = 0;
    let mut number: u64 = 0;
    let mut place: u64 = 0;
    let case = tell_port(answer, &mut first, &mut count, &mut number, &mut place);
    let told = [case, first, count, number, place];
    is_told_with(words, at, &told, lines)
}
