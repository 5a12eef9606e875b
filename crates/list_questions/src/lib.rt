// The questions about lists of nodes and about ports, asked again: whether each answer is the recorded one.
#![tactic(auto)]

ghost use Rattle.std.specs.Prelude.{true, ◌≡◌, ◌≤◌, length, drop};
ghost use Rattle.lists.specs.Lists.{same};
ghost use Rattle.paper.specs.Calls.{area_after, get_intervals_from_nodes, is_convex, topo_is_convex};
ghost use Rattle.recorded.specs.Answers.{line_words, order_words, with_list, written_words};
ghost use Rattle.recorded.specs.Questions.{
  same_intervals,
  same_line_check,
  same_line_ports,
  same_order_check,
  same_order_ports,
  same_port_lines,
};

use convex::{line_convex_checker as line, topo_convex_checker as topo};
use line_checker::room::{copy_out, record_room};
use recorded::held::{is_line_answer, is_order_answer, is_port_answer, is_written_answer};
use recorded::line_parts::{Part, list_at};

// Line check: the list; the answer.
pub fn same_line_check(words: &[u16], map: &[u8], area: &mut [u16]) -> bool
    ensures value { result ≡ same_line_check words.now map.now area.old }
    ensures cleared { result ≡ true → area.new ≡ area_after map.now area.old }
{
    let list = list_at(words, 1);
    let Some(Part { from, to }) = list else {
        return false;
    };
    let answer = line::is_node_convex(map, area, &words[from..to]);
    is_line_answer(words, to, answer)
}

// Order check: the list; the answer.
pub fn same_order_check(words: &[u16], map: &[u8], area: &mut [u16]) -> bool
    ensures value { result ≡ same_order_check words.now map.now area.old }
    ensures cleared { result ≡ true → area.new ≡ area_after map.now area.old }
{
    let list = list_at(words, 1);
    let Some(Part { from, to }) = list else {
        return false;
    };
    let answer = topo::is_node_convex(map, area, &words[from..to]);
    is_order_answer(words, to, answer)
}

// Line check with ports: the list, inputs and outputs; the answer.
pub fn same_line_ports(words: &[u16], map: &[u8], area: &mut [u16]) -> bool
    ensures value { result ≡ same_line_ports words.now map.now area.old }
    ensures cleared { result ≡ true → area.new ≡ area_after map.now area.old }
{
    let list = list_at(words, 1);
    let Some(Part { from, to }) = list else {
        return false;
    };
    let inputs = list_at(words, to);
    let Some(
        Part {
            from: input,
            to: inputs_end,
        },
    ) = inputs
    else {
        return false;
    };
    let outputs = list_at(words, inputs_end);
    let Some(
        Part {
            from: output,
            to: outputs_end,
        },
    ) = outputs
    else {
        return false;
    };
    let answer = line::is_convex(
        map,
        area,
        &words[from..to],
        &words[input..inputs_end],
        &words[output..outputs_end],
    );
    is_line_answer(words, outputs_end, answer)
}

// Order check with ports: the list, inputs and outputs; the answer.
pub fn same_order_ports(words: &[u16], map: &[u8], area: &mut [u16]) -> bool
    ensures value { result ≡ same_order_ports words.now map.now area.old }
    ensures cleared { result ≡ true → area.new ≡ area_after map.now area.old }
{
    let list = list_at(words, 1);
    let Some(Part { from, to }) = list else {
        return false;
    };
    let inputs = list_at(words, to);
    let Some(
        Part {
            from: input,
            to: inputs_end,
        },
    ) = inputs
    else {
        return false;
    };
    let outputs = list_at(words, inputs_end);
    let Some(
        Part {
            from: output,
            to: outputs_end,
        },
    ) = outputs
    else {
        return false;
    };
    let answer = topo::is_convex(
        map,
        area,
        &words[from..to],
        &words[input..inputs_end],
        &words[output..outputs_end],
    );
    is_order_answer(words, outputs_end, answer)
}

// Intervals of a list, into a buffer: whether the rest is the answer, and all words of the buffer afterwards.
fn intervals_into(
    words: &[u16],
    at: usize,
    map: &[u8],
    area: &mut [u16],
    list: &[u16],
    buffer: &mut [u16],
) -> bool
    requires { at ≤ length words.now }
    ensures value { result ≡ same (drop at words.now)
        (with_list
        (written_words (get_intervals_from_nodes map.now area.old list.now buffer.old).answer)
        (get_intervals_from_nodes map.now area.old list.now buffer.old).buffer) }
    ensures cleared { area.new ≡ area_after map.now area.old }
{
    let answer = line::get_intervals_from_nodes(map, area, list, buffer);
    is_written_answer(words, at, answer, buffer)
}

// Intervals: the list and the buffer; the answer and the buffer.
pub fn same_intervals(words: &[u16], map: &[u8], area: &mut [u16]) -> bool
    ensures value { result ≡ same_intervals words.now map.now area.old }
    ensures cleared { result ≡ true → area.new ≡ area_after map.now area.old }
{
    let list = list_at(words, 1);
    let Some(Part { from, to }) = list else {
        return false;
    };
    let buffer = list_at(words, to);
    let Some(
        Part {
            from: start,
            to: end,
        },
    ) = buffer
    else {
        return false;
    };
    let size = end - start;
    if size > 7680 {
        return false;
    }
    let mut room = record_room();
    copy_out(&words[start..end], &mut room, size);
    intervals_into(words, end, map, area, &words[from..to], &mut room[0..size])
}

// Lines at a port: the port; the answer and the lines. Both calls are asked.
pub fn same_port_lines(words: &[u16], map: &[u8], area: &mut [u16]) -> bool
    ensures value { result ≡ same_port_lines words.now map.now area.old }
    ensures cleared { result ≡ true → area.new ≡ area_after map.now area.old }
{
    if words.len() < 2 {
        return false;
    }
    let port = usize::from(words[1]);
    let answer = line::lines_at_port(map, area, port);
    let view = line::view_lines_at_port(map, area, port);
    is_port_answer(words, 2, answer, view)
}
