// Rooms of the calls' own, each size said once for the places that use it, and copying out of them: a result is written to a lent buffer only when
// it is whole.
ghost use Rattle.std.specs.Prelude.{◌≡◌, ◌≤◌, length, take};
ghost use Rattle.std.proofs.lemmas.List.Edits.{sets};

// Room for a record of each line: three words for each of L + N lines at most.
pub fn record_room() -> [u16; 7680]
    ensures { length result ≡ 7680 }
{
    [0u16; 7680]
}

// Room to sort 512 nodes in: the nodes, their keys, the starts of 256 keys, and the places.
pub fn node_room() -> [u16; 1793]
    ensures { length result ≡ 1793 }
{
    [0u16; 1793]
}

// Copies the first n words.
pub fn copy_out(from: &[u16], to: &mut [u16], n: usize)
    requires { (n ≤ length from.now) × (n ≤ length to.old) }
    ensures { to.new ≡ sets to.old 0 (take n from.now) }
{
    to[..n].copy_from_slice(&from[..n]);
}
