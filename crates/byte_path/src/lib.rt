// The path of a list whose words cross as bytes, however long it is, into a buffer of bytes.
#![tactic(auto)]

ghost use Rattle.std.specs.Prelude.{◌≡◌, [], ◌∷◌, ◌++◌, length};
ghost use Rattle.paper.specs.Calls.{line_rules};
ghost use Rattle.paper.specs.Path.{back_path, shown_of, steps_of};
ghost use Rattle.paper.specs.Refusals.{rule11};
ghost use Rattle.paper.specs.Words.{words_from};
ghost use Rattle.answers.specs.Said.{path_said};
ghost use Rattle.tables.specs.Answered.{AnsweredBytes};
ghost use Rattle.tables.specs.Usable.{Usable};

use back_path::showing::show_path_of_list;
use refusals::Refusal;
use tables::Layout;
use words::bytes::put_words;

// The path of a list in bytes: refusals 8, 9, 10, then 11.
pub fn show_path_of_list_bytes(
    b: &[u8],
    at: Layout,
    area: &mut [u16],
    list: &[u8],
    buffer: &mut [u8],
) -> Result<Option<usize>, Refusal>
    requires { Usable b.now area.old at }
    ensures { AnsweredBytes at area.old area.new (path_said result)
        (line_rules b.now (words_from list.now)
        ++ (rule11 (length (words_from buffer.old)) (length (steps_of (back_path b.now (words_from list.now)))) ∷ []))
        (shown_of (back_path b.now (words_from list.now)))
        buffer.old buffer.new
        (steps_of (back_path b.now (words_from list.now))) }
{
    // Room for the longest path of the largest map: no node stands in it twice, unless its start is its end.
    let mut room = [0u16; 513];
    let Some(steps) = show_path_of_list(b, at, area, list, &mut room)? else {
        return Ok(None);
    };
    if buffer.len() / 2 < steps {
        return Err(Refusal::TooLong(steps));
    }
    put_words(&room[..steps], buffer);
    Ok(Some(steps))
}
