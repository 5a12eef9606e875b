// What is written of a case: the answer, and then the area's words, section by section.
// Four or more equal words in a row are written once with how many they are, as `0*6`. A section of more than 80 words
// that are not all equal is written as how many they are, how many are not 0, and their checksum.
ghost use Rattle.std.specs.Prelude.{◌≤◌, ◌<◌, length, IfOk};
ghost use Rattle.tables.specs.Placed.{LaidOut};

use refusals::{Refusal, number as number_of, place as place_of};
use std::io;
use std::io::Write;
use stepmap::read::read_map;
use tables::{Layout, lay_out};

// A refusal by 01's number, with its place.
fn write_refusal(out: &mut impl Write, number: usize, place: usize) -> io::Result<()> {
    writeln!(out, "refused {number} {place}")
}

// The answer: `refused`, number and place, or `lines` and K.
pub fn write_answer(out: &mut impl Write, answer: Result<usize, Refusal>) -> io::Result<()> {
    match answer {
        Ok(k) => writeln!(out, "lines {k}"),
        Err(x) => write_refusal(out, number_of(x), place_of(x)),
    }
}

// Where the run of words equal to the one at `at` ends.
fn run_end(words: &[u16], at: usize) -> usize
    requires { at < length words.now }
    ensures { (at < result) × (result ≤ length words.now) }
{
    let first = words[at];
    let rest = &words[at + 1..];
    at + 1
        + rest
            .iter()
            .position(|word| *word != first)
            .unwrap_or(rest.len())
}

// Writes the word at `at`, or the run of four or more that starts there, and answers where to go on.
fn write_run(out: &mut impl Write, words: &[u16], at: usize) -> io::Result<usize>
    requires { at < length words.now }
    ensures { IfOk result (λ next. (at < next) × (next ≤ length words.now)) }
{
    write!(out, " {}", words[at])?;
    let end = run_end(words, at);
    let count = end - at;
    if count < 4 {
        return Ok(at + 1);
    }
    write!(out, "*{count}")?;
    Ok(end)
}

fn write_words(out: &mut impl Write, words: &[u16]) -> io::Result<()> {
    let mut at = 0;
    // Each turn goes on behind its run, so no range counts the places.
    while at < words.len() {
        at = write_run(out, words, at)?;
    }
    Ok(())
}

// How many words are not 0.
fn count_set(words: &[u16]) -> usize
    ensures { result ≤ length words.now }
{
    words.iter().filter(|word| **word != 0).count()
}

// A sum that tells words in another order apart: each word is added to 257 times what stands before it, modulo a prime.
fn checksum(words: &[u16]) -> usize
    ensures { result < 4294967291 }
{
    let mut sum: usize = 0;
    for word in words {
        sum = (sum * 257 + usize::from(*word)) % 4294967291;
    }
    sum
}

fn write_checksum(out: &mut impl Write, words: &[u16]) -> io::Result<()> {
    let (count, set, sum) = (words.len(), count_set(words), checksum(words));
    write!(out, " {count} words, {set} not 0, checksum {sum}")
}

// Whether a section is written as its checksum.
fn is_long(words: &[u16]) -> bool {
    words.len() > 80 && run_end(words, 0) < words.len()
}

// A section's words, on one line.
fn write_section(out: &mut impl Write, name: &str, words: &[u16]) -> io::Result<()> {
    out.write_all(name.as_bytes())?;
    if is_long(words) {
        write_checksum(out, words)?;
    } else {
        write_words(out, words)?;
    }
    out.write_all(b"\n")
}

// The section from one place of the area up to another.
fn write_part(
    out: &mut impl Write,
    name: &str,
    area: &[u16],
    from: usize,
    to: usize,
) -> io::Result<()>
    requires { (from ≤ to) × (to ≤ length area.now) }
{
    write_section(out, name, &area[from..to])
}

// The sections of an area, the scratch and what is past it excepted.
fn write_tables(out: &mut impl Write, area: &[u16], at: Layout) -> io::Result<()>
    requires laid_out { LaidOut at.sizes at }
    requires scratch_in_bounds { at.scratch ≤ length area.now }
{
    write_part(out, "line count", area, 0, at.order)?;
    write_part(out, "order", area, at.order, at.positions)?;
    write_part(out, "positions", area, at.positions, at.begins)?;
    write_part(out, "node starts", area, at.begins, at.lines)?;
    write_part(out, "lines of nodes", area, at.lines, at.starts)?;
    write_part(out, "line starts", area, at.starts, at.along)?;
    write_part(out, "nodes of lines", area, at.along, at.scratch)
}

// An area whose sections stand there: by sections, or as one if it is under W words.
fn write_placed(out: &mut impl Write, area: &[u16], at: Layout) -> io::Result<()>
    requires { LaidOut at.sizes at }
{
    if area.len() < at.end {
        return write_section(out, "area", area);
    }
    write_tables(out, area, at)?;
    write_part(out, "scratch", area, at.scratch, at.end)?;
    write_part(out, "past W", area, at.end, area.len())
}

// The area after preparing the map, which is as one for a map of refusal 1 or 2.
pub fn write_area(out: &mut impl Write, map: &[u8], area: &[u16]) -> io::Result<()> {
    match read_map(map) {
        Ok(sizes) => write_placed(out, area, lay_out(sizes)),
        Err(_) => write_section(out, "area", area),
    }
}
