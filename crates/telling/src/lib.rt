// An answer told in numbers: 1 is an answer or yes; 2 is no, not contiguous, not extendable or no path; 3 is refused. What a case has is written to
// the parameters lent for it, and the others stay as they were.
#![tactic(auto)]

ghost use Rattle.std.specs.Prelude.{◌≡◌, [], ◌∷◌};
ghost use Rattle.paper.specs.Exports.{in_count, in_line_reply, in_pair, in_reply, in_shown, in_written, tell};
ghost use Rattle.refusals.specs.Said.{answer_of, number_of, place_of};
ghost use Rattle.answers.specs.Said.{line_said, path_said, topo_said, written_said};

use answers::Verdict;
use refusals::{Refusal, number as number_of, place as place_of};

// A refusal by 01's number, with its place.
fn tell_refusal(x: Refusal, number: &mut u64, place: &mut u64) -> u64
    ensures { (result ≡ 3) × (number.new ≡ number_of x) × (place.new ≡ place_of x) }
{
    *number = number_of(x) as u64;
    *place = place_of(x) as u64;
    3
}

// Preparing and nodes in records: the count is K, or how many nodes there are.
pub fn tell_count(
    answer: Result<usize, Refusal>,
    count: &mut u64,
    number: &mut u64,
    place: &mut u64,
) -> u64
    ensures { record { case = result; values = count.new ∷ []; number = number.new; place = place.new }
        ≡ tell in_count (answer_of answer) (count.old ∷ []) number.old place.old }
{
    match answer {
        Ok(counted) => {
            *count = counted as u64;
            1
        }
        Err(uncounted) => tell_refusal(uncounted, number, place),
    }
}

// The line check and the check by records: yes or no, with the walk's count.
pub fn tell_line(
    answer: Result<Verdict, Refusal>,
    count: &mut u64,
    number: &mut u64,
    place: &mut u64,
) -> u64
    ensures { record { case = result; values = count.new ∷ []; number = number.new; place = place.new }
        ≡ tell in_line_reply (line_said answer) (count.old ∷ []) number.old place.old }
{
    match answer {
        Ok(Verdict::Yes(walked)) => {
            *count = walked as u64;
            1
        }
        Ok(Verdict::No(walked)) => {
            *count = walked as u64;
            2
        }
        Err(x) => tell_refusal(x, number, place),
    }
}

// The order check: yes or no.
pub fn tell_order(answer: Result<bool, Refusal>, number: &mut u64, place: &mut u64) -> u64
    ensures { record { case = result; values = []; number = number.new; place = place.new }
        ≡ tell in_reply (topo_said answer) [] number.old place.old }
{
    match answer {
        Ok(true) => 1,
        Ok(false) => 2,
        Err(x) => tell_refusal(x, number, place),
    }
}

// Intervals, extending and the path: how many records or steps stand in the buffer, or that the list is not contiguous, that the records are not
// extendable, or that there is no path.
pub fn tell_written(
    answer: Result<Option<usize>, Refusal>,
    count: &mut u64,
    number: &mut u64,
    place: &mut u64,
) -> u64
    ensures written { record { case = result; values = count.new ∷ []; number = number.new; place = place.new }
        ≡ tell in_written (written_said answer) (count.old ∷ []) number.old place.old }
    ensures shown { record { case = result; values = count.new ∷ []; number = number.new; place = place.new }
        ≡ tell in_shown (path_said answer) (count.old ∷ []) number.old place.old }
{
    match answer {
        Ok(Some(written)) => {
            *count = written as u64;
            1
        }
        Ok(None) => 2,
        Err(unwritten) => tell_refusal(unwritten, number, place),
    }
}

// Lines at a port: where the first one stands, and how many.
pub fn tell_port(
    answer: Result<(usize, usize), Refusal>,
    first: &mut u64,
    count: &mut u64,
    number: &mut u64,
    place: &mut u64,
) -> u64
    ensures { record { case = result; values = first.new ∷ (count.new ∷ []); number = number.new; place = place.new }
        ≡ tell in_pair (answer_of answer) (first.old ∷ (count.old ∷ [])) number.old place.old }
{
    match answer {
        Ok((at, many)) => {
            *first = at as u64;
            *count = many as u64;
            1
        }
        Err(x) => tell_refusal(x, number, place),
    }
}
