// An answer put as the text that the programs print of it.
#![tactic(auto)]

ghost use Rattle.std.specs.Prelude.{◌+◌, ◌≤◌, ◌<◌, length};
ghost use Rattle.paper.specs.Text.{show_line, show_order, show_refused, show_way};
ghost use Rattle.refusals.specs.Said.{answer_of, number_of, place_of};
ghost use Rattle.text.specs.Printed.{Put};
ghost use Rattle.answers.specs.Said.{line_said, path_said, topo_said};
ghost use Rattle.wording.specs.Shown.{both_checks, refused_line, steps_shown, way_in};

use answers::Verdict;
use refusals::{Refusal, number, place};
use text::printer::{put_checked, put_path, put_refused, put_refused_line, put_reply, put_text};

// Puts the refusal of a map; a map that is prepared has none.
pub fn put_unprepared(out: &mut [u8], answer: Result<usize, Refusal>) -> usize
    requires { 50 ≤ length out.old }
    ensures { Put out.old 0 (refused_line (answer_of answer)) out.new result }
{
    let Err(x) = answer else {
        return 0;
    };
    put_refused_line(out, 0, number(x), place(x))
}

// Puts a refusal.
fn put_refusal(out: &mut [u8], at: usize, x: Refusal) -> usize
    requires { at + 49 ≤ length out.old }
    ensures { Put out.old at (show_refused (number_of x) (place_of x)) out.new result }
{
    put_refused(out, at, number(x), place(x))
}

// Puts the line check's answer: its reply with the count, or its refusal.
fn put_line_answer(out: &mut [u8], at: usize, answer: Result<Verdict, Refusal>) -> usize
    requires { at + 49 ≤ length out.old }
    ensures { Put out.old at (show_line (line_said answer)) out.new result }
{
    match answer {
        Ok(Verdict::Yes(count)) => put_checked(out, at, true, count),
        Ok(Verdict::No(count)) => put_checked(out, at, false, count),
        Err(x) => put_refusal(out, at, x),
    }
}

// Puts the order check's answer: its reply or its refusal.
fn put_order_answer(out: &mut [u8], at: usize, answer: Result<bool, Refusal>) -> usize
    requires { at + 49 ≤ length out.old }
    ensures { Put out.old at (show_order (topo_said answer)) out.new result }
{
    match answer {
        Ok(reply) => put_reply(out, at, reply),
        Err(x) => put_refusal(out, at, x),
    }
}

// Puts both answers: the line check's, then the order check's.
pub fn put_answers(
    out: &mut [u8],
    line: Result<Verdict, Refusal>,
    order: Result<bool, Refusal>,
) -> usize
    requires { 110 ≤ length out.old }
    ensures { Put out.old 0 (both_checks (line_said line) (topo_said order)) out.new result }
{
    let checked = put_text(out, 0, b"line ");
    let between = put_line_answer(out, checked, line);
    let ordered = put_text(out, between, b" order ");
    put_order_answer(out, ordered, order)
}

// Puts the path's answer; its steps stand in `path` from its start.
pub fn put_way(out: &mut [u8], answer: Result<Option<usize>, Refusal>, path: &[u16]) -> usize
    requires answer_in_bounds { steps_shown (path_said answer) ≤ length path.now }
    requires path_len_bound { length path.now ≤ 514 }
    requires in_bounds { 3200 ≤ length out.old }
    ensures put { Put out.old 0 (show_way (way_in (path_said answer) path.now)) out.new result }
    ensures upper_bound { result < 3200 }
{
    match answer {
        Ok(Some(count)) => put_path(out, 0, &path[..count]),
        Ok(None) => put_text(out, 0, b"no path"),
        Err(x) => put_refusal(out, 0, x),
    }
}
