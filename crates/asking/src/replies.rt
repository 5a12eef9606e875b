// The line of output for one line of input: what the program says of its list, or that its text is bad.
ghost use Rattle.std.specs.Prelude.{◌+◌, ◌/◌, ◌≤◌, ◌<◌, [], ◌∷◌, ◌++◌, length};
ghost use Rattle.paper.specs.Text.{newline, read_list, say_line};
ghost use Rattle.asking.specs.Standing.{Standing, prepared_area};
ghost use Rattle.asking.specs.Printed.{Printed};
ghost use Rattle.asking.specs.Says.{says_of};

use super::Program;
use super::checks::say_checks;
use super::ways::say_path;
use text::printer::{put_refused_line, put_text};
use text::reader::read_list;

// Puts what the program says of a list, and leaves room for a newline.
fn say(program: Program, map: &[u8], area: &mut [u16], list: &[u16], out: &mut [u8]) -> usize
    requires standing { Standing map.now area.old }
    requires in_bounds { 3200 ≤ length out.old }
    ensures printed { Printed map.now area.new (says_of program map.now (prepared_area map.now) list.now) out.old out.new result }
    ensures upper_bound { result < 3200 }
{
    match program {
        Program::Ask => say_checks(map, area, list, out),
        Program::Why => say_path(map, area, list, out),
    }
}

// Puts the line of a list.
fn answer_list(
    program: Program,
    map: &[u8],
    area: &mut [u16],
    list: &[u16],
    out: &mut [u8],
) -> usize
    requires standing { Standing map.now area.old }
    requires in_bounds { 3200 ≤ length out.old }
    ensures { Printed map.now area.new (says_of program map.now (prepared_area map.now) list.now ++ (newline ∷ [])) out.old out.new result }
{
    let newline = say(program, map, area, list, out);
    put_text(out, newline, b"\n")
}

// Line i of the input: what is said of its list, or refusal 15 at i where it is no list.
pub fn answer_text(
    program: Program,
    map: &[u8],
    area: &mut [u16],
    text: &[u8],
    i: usize,
    list: &mut [u16],
    out: &mut [u8],
) -> usize
    requires standing { Standing map.now area.old }
    requires text_in_bounds { length text.now / 2 + 1 ≤ length list.old }
    requires in_bounds { 3200 ≤ length out.old }
    ensures { Printed map.now area.new (say_line (says_of program) map.now (prepared_area map.now) i (read_list text.now)) out.old out.new result }
{
    let Some(count) = read_list(text, list) else {
        return put_refused_line(out, 0, 15, i);
    };
    answer_list(program, map, area, &list[..count], out)
}
