// One 16-bit field: low byte first.
ghost use Rattle.std.specs.Prelude.{◌≡◌, [], ◌∷◌, ◌+◌, ◌/◌, ◌%◌, ◌<◌, length};
ghost use Rattle.std.proofs.lemmas.List.Edits.{sets};
ghost use Rattle.paper.specs.Map.{word};

// The field at a place of the bytes.
pub fn field_at(b: &[u8], at: usize) -> u16
    requires { at + 1 < length b.now }
    ensures { result ≡ word b.now at }
{
    let low = u16::from(b[at]);
    let high = u16::from(b[at + 1]);
    low + 256 * high
}

// Stores a word as the field at a place of the bytes.
pub fn put_field(b: &mut [u8], at: usize, w: u16)
    requires { at + 1 < length b.old }
    ensures { b.new ≡ sets b.old at (w % 256 ∷ (w / 256 ∷ [])) }
{
    b[at] = (w % 256) as u8;
    b[at + 1] = (w / 256) as u8;
}
