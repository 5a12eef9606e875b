// How many lines of each kind there are, and how many differ.
#![tactic(auto)]

pub mod kind;

ghost use Rattle.std.specs.Prelude.{◌≡◌, ◌+◌, ◌%◌, ◌^◌, ◌<◌, ◌≤◌, length, slice_index, slice_set};

use kind::{Kind, Question};
use std::io;
use std::io::Write;

// What counts lines that could not be read or have no kind: no kind has this number.
pub const UNREADABLE: usize = 0;

// A count for each kind, by its number, and for unreadable lines, from 0: made twice, and its length said once.
pub fn tally() -> [usize; 17]
    ensures { length result ≡ 17 }
{
    [0usize; 17]
}

// Counts one more of a kind, by its number. A file of 400,000 bytes has too few lines to wrap the count.
pub fn count_turn(counts: &mut [usize], kind: usize)
    ensures counted { kind < length counts.old → counts.new ≡ slice_set counts.old kind ((slice_index counts.old kind + 1) % 2 ^ 64) }
    ensures no_such_kind { length counts.old ≤ kind → counts.new ≡ counts.old }
{
    if kind < counts.len() {
        counts[kind] = counts[kind].wrapping_add(1);
    }
}

// A line for each kind, in the order of their numbers; counts past those go on under the last kind's name.
pub fn write_tally(out: &mut impl Write, asked: &[usize], differing: &[usize]) -> io::Result<()> {
    for (number, (count, differ)) in asked.iter().zip(differing).enumerate() {
        let name = match Kind::numbered(number) {
            Some(kind) => kind.name(),
            None if number == UNREADABLE => "unreadable lines",
            None => Kind::Asked(Question::OrderPorts).name(),
        };
        writeln!(out, "{name} {count}, {differ} differ")?;
    }
    Ok(())
}
