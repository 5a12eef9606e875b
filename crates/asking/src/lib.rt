// The programs `ask` and `why`: each reads the step map `steps.pgt` and lists on standard input, and says of each list what it is asked for.
// What is printed is proved from the reader of the input to the writer of the output: `answer_input` appends the paper's `output` for the whole
// map and the whole input, of what each of the two programs says (`ask-is` and `why-is`, proofs/Lines). `begin` puts the first line or the one line
// that is all, and turn i of `next_list` the one for line i of the input. No contract can say which bytes a file or standard input has: `run` reads
// both once, and writes each line as it is made.
#![tactic(auto)]

pub mod beginning;
pub mod checks;
pub mod replies;
pub mod turns;
pub mod ways;

ghost use Rattle.std.specs.Prelude.{◌≡◌, ℕ, ◌≤◌, List, length, take, IfOk, IfSome, OnOk};
ghost use Rattle.std.specs.Io.KnownBytes.{Appends};
ghost use Rattle.paper.specs.Text.{lines_in, output, say_lines};
ghost use Rattle.asking.specs.Says.{says_of};
ghost use Rattle.asking.specs.Standing.{Standing, prepared_area};

use beginning::{Beginning, begin};
use reading::read_full;
use std::io::{Read, Write};
use std::rt::Files;
use std::{fs, io};
use turns::next_list;

// What is asked of every list: both checks, or the path that a no shows. Two programs of the same rank, neither an absence.
#[derive(Clone, Copy)]
pub enum Program {
    Ask,
    Why,
}

// Reads the map's file; one that is missing counts as no bytes, and a name that is no text names none.
fn read_steps<R: Files>(rt: &R, name: &[u8], room: &mut [u8]) -> io::Result<usize>
    ensures { IfOk result (λ size. size ≤ length room.new) }
{
    let Ok(mut file) = fs::open(rt, str::from_utf8(name).unwrap_or("")) else {
        return Ok(0);
    };
    read_full(&mut file, room)
}

// Answers the lists of the input one after the other, writes each one's line as it is made, and answers how many there were. Turn i answers line i.
fn answer_lists<W: Write>(
    program: Program,
    map: &[u8],
    input: &[u8],
    area: &mut [u16],
    list: &mut [u16],
    out: &mut [u8],
    writer: &mut W,
) -> io::Result<usize>
    requires standing { Standing map.now area.old }
    requires input_len_bound { length input.now ≤ 60000 }
    requires in_bounds { 30001 ≤ length list.old }
    requires in_bounds_2 { 3200 ≤ length out.old }
    ensures turns { IfOk result (λ turns. turns ≡ length (lines_in input.now)) }
    ensures written { OnOk result (Appends (W.contents writer.old) (W.contents writer.new)
        (say_lines (says_of program) map.now (prepared_area map.now) 0 (lines_in input.now))) }
{
    let mut at = 0;
    let mut i = 0;
    // Each turn goes on behind its line, so no range counts the places.
    while at < input.len() {
        let turn = next_list(program, map, input, area, at, i, list, out);
        writer.write_all(&out[..turn.printed])?;
        at = turn.next;
        i += 1;
    }
    Ok(i)
}

// Writes what `begin` puts, and answers the lists where that is only the first line.
fn answer<W: Write>(program: Program, map: &[u8], input: &[u8], writer: &mut W) -> io::Result<()>
    ensures { OnOk result (Appends (W.contents writer.old) (W.contents writer.new) (output (says_of program) map.now input.now)) }
{
    // Room for the largest W, and for the longest line of output: a path of 514 steps takes 3,089 bytes.
    let mut area = [0u16; 31751];
    let mut out = [0u8; 3200];
    match begin(map, input, &mut area, &mut out) {
        Beginning::Whole(end) => writer.write_all(&out[..end]),
        Beginning::First(end) => {
            writer.write_all(&out[..end])?;
            // Room for the numbers of a line of 60,000 bytes.
            let mut list = [0u16; 30001];
            answer_lists(program, map, input, &mut area, &mut list, &mut out, writer)?;
            Ok(())
        }
    }
}

// Reads the input and answers it, on what was read of a map. A map or an input that fills its room is too long, whatever comes after (the law
// `enough_read`, proofs/Starts): so what is written is the output for all of the map and all of the input.
fn answer_input<I: Read, W: Write>(
    program: Program,
    map: &[u8],
    from: &mut I,
    writer: &mut W,
) -> io::Result<()>
    ensures { OnOk result (IfSome (I.remaining from.old) (λ input. (whole : List ℕ) → take 65001 whole ≡ map.now
        → Appends (W.contents writer.old) (W.contents writer.new) (output (says_of program) whole input))) }
{
    // One byte more than the input may have.
    let mut input = [0u8; 60001];
    let count = read_full(from, &mut input)?;
    answer(program, map, &input[..count], writer)
}

// A whole program on a map's file and an open input.
pub fn run_on<R: Files, I: Read, W: Write>(
    rt: &R,
    program: Program,
    name: &[u8],
    from: &mut I,
    writer: &mut W,
) -> io::Result<()>
    ensures { OnOk result (IfSome (I.remaining from.old) (λ input. (map : List ℕ)
        × Appends (W.contents writer.old) (W.contents writer.new) (output (says_of program) map input))) }
{
    // One byte more than a map may have, so that a longer one is seen.
    let mut map = [0u8; 65001];
    let size = read_steps(rt, name, &mut map)?;
    answer_input(program, &map[..size], from, writer)
}

// A program as it is called.
pub fn run<R: Files + Input + Print>(rt: &R, program: Program) -> io::Result<()> {
    run_on(
        rt,
        program,
        b"steps.pgt",
        &mut rt.reader(),
        &mut io::writer(rt),
    )
}
