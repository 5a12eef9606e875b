// The path that a no shows, exported. It keeps its promise in what a host hears from the numbers (`heard_path`) and reads from the buffer.
ghost use Rattle.std.specs.Prelude.{◌≡◌, [], ◌∷◌};
ghost use Rattle.paper.specs.Calls.{show_path};
ghost use Rattle.paper.specs.Exports.{export_with, heard_path, in_shown};
ghost use Rattle.paper.specs.Promise.{PathPromise, StepList, Trusted};
ghost use Rattle.paper.specs.Words.{words_from};

use byte_calls::path::show_path;
use crossing::{area_room, read_area};
use telling::tell_written;
use words::bytes::put_words;

// Show the path: 1 with how many steps were written, 2 no path, or 3 refused (1 to 5, 7, 8, 9, 10, 11).
#[unsafe(no_mangle)]
pub extern "C" fn varddohas_show_path(
    map: &[u8],
    area: &mut [u8],
    list: &[u8],
    buffer: &mut [u8],
    count: &mut u64,
    number: &mut u64,
    place: &mut u64,
) -> u64
    ensures buffer_after { record { told = record { case = result; values = count.new ∷ []; number = number.new; place = place.new }; area = area.new; buffer = buffer.new }
        ≡ export_with in_shown (count.old ∷ []) number.old place.old area.old buffer.old
        (show_path map.now (words_from area.old) (words_from list.now) (words_from buffer.old)) }
    ensures path_promise { Trusted map.now (words_from area.old) → StepList map.now (words_from list.now)
        → PathPromise map.now (words_from list.now) (words_from buffer.old) (words_from buffer.new)
        (heard_path result count.new number.new place.new) }
{
    let mut room = area_room();
    let words = read_area(area, &mut room);
    let answer = show_path(map, &mut room[..words], list, buffer);
    put_words(&room[..words], area);
    tell_written(answer, count, number, place)
}
