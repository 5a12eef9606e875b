// A text's parts between the bytes that part it: lines between newlines, numbers between spaces.
ghost use Rattle.std.specs.Prelude.{◌≡◌, ◌≤◌, length};
ghost use Rattle.paper.specs.Text.{newline};
ghost use Rattle.text.specs.Parts.{part_end};

// Where the part that starts at `at` ends: at the next mark, or at the text's end.
pub fn part_end(text: &[u8], at: usize, mark: u8) -> usize
    requires { at ≤ length text.now }
    ensures { result ≡ part_end mark text.now at }
{
    let rest = &text[at..];
    at + rest.iter().position(|x| *x == mark).unwrap_or(rest.len())
}

// Where the line that starts at `at` ends: at its newline, or at the input's end. The next line starts one byte on.
pub fn line_end(input: &[u8], at: usize) -> usize
    requires { at ≤ length input.now }
    ensures { result ≡ part_end newline input.now at }
{
    part_end(input, at, b'\n')
}
