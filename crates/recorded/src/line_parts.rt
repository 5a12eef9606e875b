// The parts of a line's words: a list stands with its length before it.
ghost use Rattle.std.specs.Prelude.{◌≤◌, length};
ghost use Rattle.recorded.specs.Parts.{ListAt};

// A part of a line, from one place up to another.
#[derive(Clone, Copy)]
pub struct Part {
    pub from: usize,
    pub to: usize,
}

// The list whose length stands at a place, unless the line is too short for it.
pub fn list_at(words: &[u16], at: usize) -> Option<Part>
    ensures { ListAt result words.now at }
{
    let count = usize::from(*words.get(at)?);
    let from = at + 1;
    if count > words.len() - from {
        return None;
    }
    Some(Part {
        from,
        to: from + count,
    })
}
