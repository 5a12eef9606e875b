// The path that a no shows (02, No. 1): it is ours, and stands in no file of the Rust.
ghost use Rattle.std.specs.Prelude.{◌≡◌};
ghost use Rattle.paper.specs.Calls.{show_path};
ghost use Rattle.paper.specs.Promise.{PathPromise, StepList, Trusted};
ghost use Rattle.answers.specs.Said.{path_said};

use back_path::showing::show_path_of_list;
use opening::ends::clear_scratch;
use opening::open;
use refusals::Refusal;

// Shows the shortest path that leaves a list of nodes and comes back to it, written to the buffer from its start to its end; or that there is none,
// which is so exactly when the line check says yes. Refusals 1 to 5, 7, 8, 9, 10, 11.
pub fn show_path(
    map: &[u8],
    area: &mut [u16],
    list: &[u16],
    buffer: &mut [u16],
) -> Result<Option<usize>, Refusal>
    ensures buffer_after { record { answer = path_said result; area = area.new; buffer = buffer.new }
        ≡ show_path map.now area.old list.now buffer.old }
    ensures path_promise { Trusted map.now area.old → StepList map.now list.now
        → PathPromise map.now list.now buffer.old buffer.new (path_said result) }
{
    let at = open(map, area)?;
    let shown = show_path_of_list(map, at, area, list, buffer);
    clear_scratch(area, at);
    shown
}
