// What the calls answer beside what std's types say: but for the view of a port's lines a call's answer is the `Ok` of a `Result`, and a refusal its
// `Err`.
#![tactic(auto)]

// The line check and the check by records: whether the list is convex, with the walk's count, which a no has too.
#[derive(Clone, Copy)]
pub enum Verdict {
    Yes(usize),
    No(usize),
}
