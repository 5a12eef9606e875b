// The list of cases: its lines, their words, and the numbers among these. Any bytes are taken.
ghost use Rattle.std.specs.Prelude.{◌≡◌, ◌≤◌, ◌<◌, ◌%◌, [], length, IsUtf8};
ghost use Rattle.prepare_cases.specs.Number.{number_of};

// Where the line after the one at `at` starts, or the list's end.
pub fn next_line(list: &[u8], at: usize) -> usize
    requires { at < length list.now }
    ensures { (at < result) × (result ≤ length list.now) }
{
    match list[at..].iter().position(|x| *x == b'\n') {
        Some(before) => at + before + 1,
        None => list.len(),
    }
}

// Where the word at `at` ends: at a space, at the line's newline or at the line's end.
pub fn word_end(line: &[u8], at: usize) -> usize
    requires { at ≤ length line.now }
    ensures { (at ≤ result) × (result ≤ length line.now) }
{
    let rest = &line[at..];
    at + rest.iter().position(|x| *x <= b' ').unwrap_or(rest.len())
}

// Where the word after the one that ends at `end` starts, if there is one.
pub fn next_word(line: &[u8], end: usize) -> usize
    requires { end ≤ length line.now }
    ensures { (end ≤ result) × (result ≤ length line.now) }
{
    line.len().min(end + 1)
}

// A word as a file's name. One that is no text is taken as the empty one: neither names a file.
pub fn file_name(word: &[u8]) -> &str
    ensures text { IsUtf8 word.now → result.now ≡ word.now }
    ensures none { ¬ (IsUtf8 word.now) → result.now ≡ [] }
{
    str::from_utf8(word).unwrap_or("")
}

// The number that a decimal digit stands for.
fn digit(x: u8) -> usize
    ensures { result ≡ x % 16 }
{
    usize::from(x % 16)
}

// The number that a word of decimal digits stands for. The list has none above 65535, so the remainder cuts nothing off.
pub fn number(word: &[u8]) -> u16
    ensures { result ≡ number_of word.now }
{
    let mut value: usize = 0;
    for x in word {
        value = (value * 10 + digit(*x)) % 65536;
    }
    value as u16
}
