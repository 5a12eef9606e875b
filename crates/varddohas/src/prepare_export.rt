// Preparing exported.
ghost use Rattle.std.specs.Prelude.{◌≡◌, [], ◌∷◌};
ghost use Rattle.paper.specs.Calls.{prepare};
ghost use Rattle.paper.specs.Exports.{export, in_count};
ghost use Rattle.paper.specs.Words.{words_from};

use convex::prepare::prepare;
use crossing::{area_room, read_area};
use telling::tell_count;
use words::bytes::put_words;

// Preparing: 1 with K, or 3 refused (1 to 6).
#[unsafe(no_mangle)]
pub extern "C" fn varddohas_prepare(
    map: &[u8],
    area: &mut [u8],
    lines: &mut u64,
    number: &mut u64,
    place: &mut u64,
) -> u64
    ensures { record { told = record { case = result; values = lines.new ∷ []; number = number.new; place = place.new }; area = area.new }
        ≡ export in_count (lines.old ∷ []) number.old place.old area.old
        (prepare map.now (words_from area.old)) }
{
    let mut room = area_room();
    let words = read_area(area, &mut room);
    let answer = prepare(map, &mut room[..words]);
    put_words(&room[..words], area);
    tell_count(answer, lines, number, place)
}
