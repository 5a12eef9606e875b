// Sections of one lent slice of words: what is not named stands as it stood.
ghost use Rattle.std.specs.Prelude.{◌≡◌, ◌+◌, ◌≤◌, ◌<◌, length, replicate, get_or};
ghost use Rattle.std.proofs.lemmas.List.Edits.{sets};
ghost use Rattle.lists.proofs.Sections.{Disjoint, part};

// Puts v into each of the n words from `at` on.
pub fn fill(area: &mut [u16], at: usize, n: usize, v: u16)
    requires { at + n ≤ length area.old }
    ensures { area.new ≡ sets area.old at (replicate n v) }
{
    area[at..at + n].fill(v);
}

// Copies the n words from `src` on to `dst`, in either direction; the two sections have no word in common.
pub fn copy(area: &mut [u16], src: usize, dst: usize, n: usize)
    requires { (src + n ≤ length area.old) × (dst + n ≤ length area.old) × Disjoint src n dst n }
    ensures { area.new ≡ sets area.old dst (part area.old src n) }
{
    for i in 0..n {
        area[dst + i] = area[src + i];
    }
}

// Word i of the section at `at`, as an index.
pub fn word_at(area: &[u16], at: usize, i: usize) -> usize
    requires { at + i < length area.now }
    ensures { result ≡ get_or area.now (at + i) 0 }
{
    usize::from(area[at + i])
}
