// The printer: texts, numbers and the program's lines, put into lent bytes. Each function answers where its text ends.
ghost use Rattle.std.specs.Prelude.{◌+◌, ◌*◌, ◌≤◌, [], ◌∷◌, ◌++◌, length};
ghost use Rattle.paper.specs.Refusals.{answered};
ghost use Rattle.paper.specs.Path.{path};
ghost use Rattle.paper.specs.Text.{newline, decimal, show_reply, show_refused, show_line, show_way};
ghost use Rattle.text.specs.Printed.{Put, reply_of, first_line};

// Puts a text.
pub fn put_text(out: &mut [u8], at: usize, text: &[u8]) -> usize
    requires { at + length text.now ≤ length out.old }
    ensures { Put out.old at text.now out.new result }
{
    let end = at + text.len();
    out[at..end].copy_from_slice(text);
    end
}

// Puts a number in decimal, which takes at most 20 bytes: the digits of a tenth of it, and then its last.
pub fn put_decimal(out: &mut [u8], at: usize, n: usize) -> usize
    requires { at + 20 ≤ length out.old }
    ensures { Put out.old at (decimal n) out.new result }
{
    if n < 10 {
        out[at] = (48 + n) as u8;
        return at + 1;
    }
    let end = put_decimal(out, at, n / 10);
    out[end] = (48 + n % 10) as u8;
    end + 1
}

// Puts a text with a number after it.
pub fn put_numbered(out: &mut [u8], at: usize, text: &[u8], n: usize) -> usize
    requires { at + length text.now + 20 ≤ length out.old }
    ensures { Put out.old at (text.now ++ decimal n) out.new result }
{
    let digits = put_text(out, at, text);
    put_decimal(out, digits, n)
}

// Puts `yes` or `no`, which is all that is shown of the order check's reply.
pub fn put_reply(out: &mut [u8], at: usize, reply: bool) -> usize
    requires { at + 3 ≤ length out.old }
    ensures { Put out.old at (show_reply (reply_of reply)) out.new result }
{
    if reply {
        return put_text(out, at, b"yes");
    }
    put_text(out, at, b"no")
}

// Puts the line check's reply with its count.
pub fn put_checked(out: &mut [u8], at: usize, reply: bool, count: usize) -> usize
    requires { at + 24 ≤ length out.old }
    ensures { Put out.old at (show_line (answered (reply_of reply, count))) out.new result }
{
    let counted = put_reply(out, at, reply);
    put_numbered(out, counted, b" ", count)
}

// Puts `refused`, number and place.
pub fn put_refused(out: &mut [u8], at: usize, number: usize, place: usize) -> usize
    requires { at + 49 ≤ length out.old }
    ensures { Put out.old at (show_refused number place) out.new result }
{
    let placed = put_numbered(out, at, b"refused ", number);
    put_numbered(out, placed, b" ", place)
}

// Puts a refusal that is a line of its own: of the map, of the input's size or of a bad text line.
pub fn put_refused_line(out: &mut [u8], at: usize, number: usize, place: usize) -> usize
    requires { at + 50 ≤ length out.old }
    ensures { Put out.old at (show_refused number place ++ (newline ∷ [])) out.new result }
{
    let end = put_refused(out, at, number, place);
    put_text(out, end, b"\n")
}

// Puts the first line: N, L and K.
pub fn put_first(out: &mut [u8], at: usize, n: usize, l: usize, k: usize) -> usize
    requires { at + 81 ≤ length out.old }
    ensures { Put out.old at (first_line n l k) out.new result }
{
    let links = put_numbered(out, at, b"steps ", n);
    let lines = put_numbered(out, links, b" links ", l);
    let newline = put_numbered(out, lines, b" lines ", k);
    put_text(out, newline, b"\n")
}

// Puts a path as its steps, each after a space: none takes more than 5 digits.
pub fn put_path(out: &mut [u8], at: usize, steps: &[u16]) -> usize
    requires { at + 6 * length steps.now + 19 ≤ length out.old }
    ensures put { Put out.old at (show_way (answered (path steps.now))) out.new result }
    ensures upper_bound { result ≤ at + 6 * length steps.now + 4 }
{
    let mut end = put_text(out, at, b"path");
    for step in steps {
        end = put_numbered(out, end, b" ", usize::from(*step));
    }
    end
}
