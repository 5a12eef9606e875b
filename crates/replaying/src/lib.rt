// Recorded answers, replayed: `answers.txt` has a question and its answer on each line, in decimal numbers, and its head says how it was made and
// what its lines mean. Answers are the Rust's, refusals a plain reading of 01. Every call is asked again, and its answer held against the recorded one.
#![tactic(auto)]

mod lent;
mod turns;

ghost use Rattle.std.specs.Prelude.{◌≡◌, length};

use reading::read_full;
use std::io::Write;
use std::rt::Files;
use std::{fs, io};
use tallying::{UNREADABLE, count_turn, tally, write_tally};
use text::parts::line_end;
use turns::{Outcome, Turn, replay_line, start};

// Says which line differs, by its number from 1.
fn write_differing(out: &mut impl Write, number: usize) -> io::Result<()> {
    writeln!(out, "line {number} differs")
}

// Counts a turn, unless its line belongs to the head, and says if it differs.
fn tell(
    out: &mut impl Write,
    turn: Turn,
    number: usize,
    asked: &mut [usize],
    differing: &mut [usize],
) -> io::Result<()> {
    let (kind, agrees) = match turn.outcome {
        Outcome::Silent => return Ok(()),
        Outcome::Unread => (UNREADABLE, false),
        Outcome::Read(kind, agrees) => (kind.number(), agrees),
    };
    count_turn(asked, kind);
    if !agrees {
        count_turn(differing, kind);
        write_differing(out, number)?;
    }
    Ok(())
}

// Replays line by line, with rooms for a line's words, the map, its area and what that must be, and answers the checksum.
fn replay_lines(
    out: &mut impl Write,
    file: &[u8],
    words: &mut [u16],
    map: &mut [u8],
    area: &mut [u16],
    kept: &mut [u16],
    asked: &mut [usize],
    differing: &mut [usize],
) -> io::Result<usize> {
    let mut turn = start();
    let mut at = 0;
    let mut number: usize = 0;
    // Each turn goes on behind its line, so no range counts the places.
    while at < file.len() {
        let end = line_end(file, at);
        turn = replay_line(&file[at..end], turn, words, map, area, kept);
        number += 1;
        tell(out, turn, number, asked, differing)?;
        at = end + 1;
    }
    Ok(turn.sum)
}

// Replays the whole file, and writes what was counted.
fn replay(out: &mut impl Write, file: &[u8]) -> io::Result<()> {
    // Room for the numbers of a line of 65,000 bytes.
    let mut words = [0u16; 32501];
    // Room for the largest map.
    let mut map = [0u8; 18444];
    // Room for the largest W, and eight words past it.
    let mut area = [0u16; 31759];
    let mut kept = [0u16; 31759];
    let mut asked = tally();
    let mut differing = tally();
    let sum = replay_lines(
        out,
        file,
        &mut words,
        &mut map,
        &mut area,
        &mut kept,
        &mut asked,
        &mut differing,
    )?;
    write_tally(out, &asked, &differing)?;
    writeln!(out, "checksum {sum}")
}

// Replays the file of answers.
pub fn run<R: Files + Print>(rt: &R) -> io::Result<()> {
    let mut out = io::writer(rt);
    let Ok(mut file) = fs::open(rt, "answers.txt") else {
        return writeln!(out, "no answers");
    };
    // Room for the file, which has some 360,000 bytes.
    let mut bytes = [0u8; 400000];
    let count = read_full(&mut file, &mut bytes)?;
    replay(&mut out, &bytes[..count])
}
