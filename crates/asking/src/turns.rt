// The lines of the input one after the other.
ghost use Rattle.std.specs.Prelude.{◌<◌, ◌≤◌, length};
ghost use Rattle.asking.specs.Standing.{Standing};
ghost use Rattle.asking.specs.Says.{says_of};
ghost use Rattle.asking.specs.Turns.{StartsLine, Turned};

use super::Program;
use super::replies::answer_text;
use text::parts::line_end;

// A line of output, as where it ends, and where the next line of the input starts.
#[derive(Clone, Copy)]
pub struct Turn {
    pub printed: usize,
    pub next: usize,
}

// Asks line i of the input, which starts at `at`. A bad line is answered like any other, and the next one follows.
pub fn next_list(
    program: Program,
    map: &[u8],
    input: &[u8],
    area: &mut [u16],
    at: usize,
    i: usize,
    list: &mut [u16],
    out: &mut [u8],
) -> Turn
    requires standing { Standing map.now area.old }
    requires starts_line { StartsLine input.now at i }
    requires at_in_bounds { at < length input.now }
    requires input_len_bound { length input.now ≤ 60000 }
    requires in_bounds { 30001 ≤ length list.old }
    requires in_bounds_2 { 3200 ≤ length out.old }
    ensures { Turned (says_of program) map.now input.now at i area.new out.old out.new result }
{
    let end = line_end(input, at);
    let printed = answer_text(program, map, area, &input[at..end], i, list, out);
    Turn {
        printed,
        next: end + 1,
    }
}
