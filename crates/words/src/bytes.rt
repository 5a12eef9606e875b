// Words as they cross in the exported functions: two bytes each, low byte first.
ghost use Rattle.std.specs.Prelude.{◌≡◌, ◌*◌, ◌/◌, ◌≤◌, length};
ghost use Rattle.std.proofs.lemmas.List.Edits.{sets};
ghost use Rattle.paper.specs.Words.{words_from, put_words};

use crate::field::{field_at, put_field};

// Decodes the bytes into the first words; an odd last byte is not read.
pub fn words_from(bytes: &[u8], words: &mut [u16])
    requires { length bytes.now / 2 ≤ length words.old }
    ensures { words.new ≡ sets words.old 0 (words_from bytes.now) }
{
    for i in 0..bytes.len() / 2 {
        words[i] = field_at(bytes, 2 * i);
    }
}

// Encodes every word into the first bytes; the bytes after them stand as they stood.
pub fn put_words(words: &[u16], bytes: &mut [u8])
    requires { 2 * length words.now ≤ length bytes.old }
    ensures { bytes.new ≡ put_words bytes.old words.now }
{
    for (i, word) in words.iter().enumerate() {
        put_field(bytes, 2 * i, *word);
    }
}
