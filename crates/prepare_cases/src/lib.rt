// The stored cases of preparing. Standard input lists them, one a line: the file of a map, how many words the area has,
// and the word that stands in each of them beforehand. `differential/record --prepare` makes the list, the maps and the
// output to expect, which is what the Rust prepares.
#![tactic(auto)]

pub mod list;
mod report;

use convex::prepare::prepare;
use list::{file_name, next_line, next_word, number, word_end};
use reading::read_full;
use report::{write_answer, write_area};
use std::io::Write;
use std::rt::Files;
use std::{fs, io};

// Prepares the map in the area, and writes the answer and what stands in the area then.
fn run_in(out: &mut impl Write, map: &[u8], area: &mut [u16], before: u16) -> io::Result<()> {
    area.fill(before);
    let answer = prepare(map, area);
    write_answer(out, answer)?;
    write_area(out, map, area)
}

// Lends an area of just so many words.
fn run_map(out: &mut impl Write, map: &[u8], words: usize, before: u16) -> io::Result<()> {
    if words > 32000 {
        return writeln!(out, "more words than there is room for");
    }
    // Room for the largest W, 31,751, and for words past it.
    let mut room = [0u16; 32000];
    run_in(out, map, &mut room[..words], before)
}

// Reads the map's file.
fn run_file<R: Files>(
    rt: &R,
    out: &mut impl Write,
    name: &str,
    words: usize,
    before: u16,
) -> io::Result<()> {
    let Ok(mut file) = fs::open(rt, name) else {
        return writeln!(out, "no such map");
    };
    // Room for a map: what a longer one has past it is not read.
    let mut bytes = [0u8; 65536];
    let count = read_full(&mut file, &mut bytes)?;
    run_map(out, &bytes[..count], words, before)
}

// Runs the case of a line; what is written stands between that line and an empty one.
fn run_line<R: Files>(rt: &R, out: &mut impl Write, line: &[u8]) -> io::Result<()> {
    out.write_all(line)?;
    let name_end = word_end(line, 0);
    let words = next_word(line, name_end);
    let words_end = word_end(line, words);
    let before = next_word(line, words_end);
    let before_end = word_end(line, before);
    run_file(
        rt,
        out,
        file_name(&line[..name_end]),
        usize::from(number(&line[words..words_end])),
        number(&line[before..before_end]),
    )?;
    out.write_all(b"\n")
}

fn run_lines<R: Files>(rt: &R, out: &mut impl Write, list: &[u8]) -> io::Result<()> {
    let mut at = 0;
    // Each turn goes on behind its line, so no range counts the places.
    while at < list.len() {
        let end = next_line(list, at);
        run_line(rt, out, &list[at..end])?;
        at = end;
    }
    Ok(())
}

// Runs every case of the list on standard input.
pub fn run<R: Files + Input + Print>(rt: &R) -> io::Result<()> {
    // Room for the list of cases.
    let mut list = [0u8; 65536];
    let count = read_full(&mut rt.reader(), &mut list)?;
    run_lines(rt, &mut io::writer(rt), &list[..count])
}
