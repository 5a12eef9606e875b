// A caller's list, read entry by entry however it came: as words, or as bytes, two for each word.
ghost use Rattle.std.specs.Prelude.{◌≡◌, ℕ, List, ◌<◌, length, get_or};
ghost use Rattle.paper.specs.Words.{words_from};

use crate::field::field_at;

pub trait Entries {
    // The words of the list.
    ghost entries: { Self → List ℕ };

    // How many there are.
    fn count(&self) -> usize
        ensures { result ≡ length (entries self.now) };

    // The entry at a place.
    fn entry(&self, i: usize) -> u16
        requires { i < length (entries self.now) }
        ensures { result ≡ get_or (entries self.now) i 0 };
}

impl Entries for &[u16] {
    ghost entries = { λ list. list.now };

    fn count(&self) -> usize {
        self.len()
    }

    fn entry(&self, i: usize) -> u16 {
        self[i]
    }
}

// An odd last byte is no entry.
impl Entries for &[u8] {
    ghost entries = { λ list. words_from list.now };

    fn count(&self) -> usize {
        self.len() / 2
    }

    fn entry(&self, i: usize) -> u16 {
        prove!(i < self.len() / 2);
        field_at(*self, 2 * i)
    }
}
