// The path that a no shows, of a list whose words cross as bytes, into a buffer of bytes; the area is one of words.
ghost use Rattle.std.specs.Prelude.{◌≡◌};
ghost use Rattle.paper.specs.Calls.{show_path};
ghost use Rattle.paper.specs.Words.{words_from};
ghost use Rattle.answers.specs.Said.{path_said};
ghost use Rattle.byte_calls.specs.Buffered.{buffered};

use byte_path::show_path_of_list_bytes;
use opening::ends::clear_scratch;
use opening::open;
use refusals::Refusal;

// Shows the path of a list in bytes, written to a buffer of bytes.
pub fn show_path(
    map: &[u8],
    area: &mut [u16],
    list: &[u8],
    buffer: &mut [u8],
) -> Result<Option<usize>, Refusal>
    ensures { record { answer = path_said result; area = area.new; buffer = buffer.new }
        ≡ buffered buffer.old (show_path map.now area.old (words_from list.now) (words_from buffer.old)) }
{
    let at = open(map, area)?;
    let shown = show_path_of_list_bytes(map, at, area, list, buffer);
    clear_scratch(area, at);
    shown
}
