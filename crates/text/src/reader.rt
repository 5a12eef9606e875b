// The reader of a line: decimal numbers up to 65535 with single spaces between, no sign and no needless leading zero.
ghost use Rattle.std.specs.Prelude.{◌≡◌, ◌+◌, ◌-◌, ◌/◌, ◌≤◌, length};
ghost use Rattle.paper.specs.Text.{read_number};
ghost use Rattle.text.specs.Numbers.{read_on, reading_said, number_at};
ghost use Rattle.text.specs.Lists.{ReadInto};

use crate::parts::part_end;

// The reader's place in a line. A place past the line's end says that the line is read.
#[derive(Clone, Copy)]
pub struct Cursor {
    pub at: usize,
}

// The number that a decimal digit stands for.
fn digit(x: u8) -> usize
    requires { 48 ≤ x }
    ensures { result ≡ x - 48 }
{
    usize::from(x - b'0')
}

// The value of decimal digits. It is tested at each of them, so that it never wraps, however many there are.
fn value_of(text: &[u8]) -> Option<u16>
    ensures { reading_said result ≡ read_on 0 text.now }
{
    let mut value: usize = 0;
    for x in text {
        if !x.is_ascii_digit() {
            return None;
        }
        value = 10 * value + digit(*x);
        if value > 65535 {
            return None;
        }
    }
    Some(value as u16)
}

// The number that a text is.
fn read_number(text: &[u8]) -> Option<u16>
    ensures { reading_said result ≡ read_number text.now }
{
    if text.is_empty() {
        return None;
    }
    if text.len() > 1 && text[0] == b'0' {
        return None;
    }
    value_of(text)
}

impl Cursor {
    // The number that starts at the cursor and ends before the next space or at the line's end, with the place moved past it.
    pub fn number(self, line: &[u8]) -> Option<(u16, Cursor)>
        requires { self.at ≤ length line.now }
        ensures { result ≡ number_at line.now self.at }
    {
        let end = part_end(line, self.at, b' ');
        let number = read_number(&line[self.at..end])?;
        Some((number, Cursor { at: end + 1 }))
    }
}

// Reads a line's numbers into the list's first words, and answers how many there are, if the line is a list. Each number takes a byte, and each
// but the first a space too.
pub fn read_list(line: &[u8], list: &mut [u16]) -> Option<usize>
    requires { length line.now / 2 + 1 ≤ length list.old }
    ensures { ReadInto line.now list.old list.new result }
{
    if line.is_empty() {
        return Some(0);
    }
    let mut cursor = Cursor { at: 0 };
    let mut count = 0;
    // Each turn goes on behind its number, so no range counts the places.
    while cursor.at <= line.len() {
        let (number, next) = cursor.number(line)?;
        list[count] = number;
        count += 1;
        cursor = next;
    }
    Some(count)
}
