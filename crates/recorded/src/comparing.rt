// Words held against the rest of a line, from a place on.
ghost use Rattle.std.specs.Prelude.{◌≡◌, ◌∷◌, ◌≤◌, length, take, drop};
ghost use Rattle.lists.specs.Lists.{same};
ghost use Rattle.recorded.specs.Answers.{with_list};

// Whether two lists of words are the same.
pub fn same_words(xs: &[u16], ys: &[u16]) -> bool
    ensures { result ≡ same xs.now ys.now }
{
    xs == ys
}

// Whether the rest is a list with its length before it.
pub fn is_list(words: &[u16], at: usize, list: &[u16]) -> bool
    requires { at ≤ length words.now }
    ensures { result ≡ same (drop at words.now) (length list.now ∷ list.now) }
{
    if at == words.len() {
        return false;
    }
    usize::from(words[at]) == list.len() && same_words(&words[at + 1..], list)
}

// Whether the rest begins with the numbers told.
fn begins(words: &[u16], at: usize, told: &[u64]) -> bool
    requires { at ≤ length words.now }
    ensures { result ≡ same (take (length told.now) (drop at words.now)) told.now }
{
    if words.len() - at < told.len() {
        return false;
    }
    let front = &words[at..at + told.len()];
    front.iter().zip(told).all(|(x, y)| u64::from(*x) == *y)
}

// Whether the rest is the numbers told.
pub fn is_told(words: &[u16], at: usize, told: &[u64]) -> bool
    requires { at ≤ length words.now }
    ensures { result ≡ same (drop at words.now) told.now }
{
    words.len() - at == told.len() && begins(words, at, told)
}

// Whether the rest is the numbers told, and behind them a list with its length before it.
pub fn is_told_with(words: &[u16], at: usize, told: &[u64], list: &[u16]) -> bool
    requires { at ≤ length words.now }
    ensures { result ≡ same (drop at words.now) (with_list told.now list.now) }
{
    if words.len() - at < told.len() {
        return false;
    }
    begins(words, at, told) && is_list(words, at + told.len(), list)
}
