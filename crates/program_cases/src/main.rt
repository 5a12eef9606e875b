// The stored cases of `ask` and `why`. Standard input lists them, one a line: the program, the file of a map, the file that is read for standard
// input, and what the case shows. Each is run by the whole path of its program; its line stands before what the program prints, and an empty line
// after it.
#![tactic(auto)]

ghost use Rattle.std.specs.Prelude.{◌≡◌, length};

use asking::Program;
use prepare_cases::list::{file_name, next_line, next_word, word_end};
use reading::read_full;
use std::io::Write;
use std::rt::Files;
use std::{fs, io};

// The program that a line names: `why`, or else `ask`.
fn program_of(line: &[u8]) -> Program {
    if line.starts_with(b"w") {
        Program::Why
    } else {
        Program::Ask
    }
}

// Runs a program on a map's file, which may be missing, and on a file for its input, which must be there.
fn run_files<R: Files>(
    rt: &R,
    out: &mut impl Write,
    program: Program,
    map: &[u8],
    input: &str,
) -> io::Result<()> {
    let Ok(mut file) = fs::open(rt, input) else {
        return writeln!(out, "no such input");
    };
    asking::run_on(rt, program, map, &mut file, out)
}

// Runs the case of a line.
fn run_line<R: Files>(rt: &R, out: &mut impl Write, line: &[u8]) -> io::Result<()> {
    out.write_all(line)?;
    let program = program_of(line);
    let map = next_word(line, word_end(line, 0));
    let map_end = word_end(line, map);
    let input = next_word(line, map_end);
    let input_end = word_end(line, input);
    run_files(
        rt,
        out,
        program,
        &line[map..map_end],
        file_name(&line[input..input_end]),
    )?;
    out.write_all(b"\n")
}

fn run_lines<R: Files>(rt: &R, out: &mut impl Write, list: &[u8]) -> io::Result<()> {
    let mut at = 0;
    // Each turn goes on behind its line, so no range counts the places.
    while at < list.len() {
        let end = next_line(list, at);
        run_line(rt, out, &list[at..end])?;
        at = end;
    }
    Ok(())
}

fn main(rt: HostRuntime) -> io::Result<()> {
    // Room for the list of cases.
    let mut list = [0u8; 4096];
    let count = read_full(&mut rt.reader(), &mut list)?;
    run_lines(&rt, &mut io::writer(&rt), &list[..count])
}
