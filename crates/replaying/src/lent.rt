// The area that is lent: its scratch is not 0 when a question is asked, and words stand past W. Afterwards the scratch is 0 and all else as it was.
ghost use Rattle.std.specs.Prelude.{◌≡◌, length};
ghost use Rattle.replaying.specs.Inside.{Inside};

use recorded::comparing::same_words;
use recorded::line_parts::Part;
use stepmap::read::read_map;
use tables::lay_out;

// What stands in words that no call has written: not 0, and no number of a map of the file.
const MARK: u16 = 42405;

// Marks every word, before a map is prepared.
pub fn spoil(area: &mut [u16]) {
    area.fill(MARK);
}

// Where the scratch stands in an area of so many words, if the map and the area have one.
fn scratch(map: &[u8], size: usize) -> Option<Part>
    ensures { Inside result size }
{
    let Ok(sizes) = read_map(map) else {
        return None;
    };
    let at = lay_out(sizes);
    if at.end > size {
        return None;
    }
    Some(Part {
        from: at.scratch,
        to: at.end,
    })
}

// Marks the scratch, before a question is asked.
pub fn mark_scratch(map: &[u8], area: &mut [u16]) {
    if let Some(Part { from, to }) = scratch(map, area.len()) {
        area[from..to].fill(MARK);
    }
}

// Keeps what preparing left, for every question about the map, and says whether the scratch is 0 and the words past W are marked still: all
// words, if the map is refused unread.
pub fn keep(map: &[u8], area: &[u16], kept: &mut [u16]) -> bool {
    if area.len() != kept.len() {
        return false;
    }
    kept.copy_from_slice(area);
    if let Some(Part { from, to }) = scratch(map, area.len()) {
        kept[from..to].fill(0);
        kept[to..].fill(MARK);
    } else {
        kept.fill(MARK);
    }
    same_words(area, kept)
}
