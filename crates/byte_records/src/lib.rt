// The questions on records whose words cross as bytes, however many they are. Of K + 1 records one has a line that another has, or none of the
// K lines, so that no more are read.
#![tactic(auto)]

ghost use Rattle.std.specs.Prelude.{◌≡◌, [], ◌∷◌, ◌*◌, ◌/◌, ◌<◌, ◌≤◌, min, length, take, MatchResult};
ghost use Rattle.std.proofs.lemmas.List.Edits.{sets};
ghost use Rattle.paper.specs.Calls.{needed, said, words_of};
ghost use Rattle.paper.specs.Records.{extend, nodes_in, records_in};
ghost use Rattle.paper.specs.Refusals.{rule8, rule9, rule11, rule12, rule13, whole_records};
ghost use Rattle.paper.specs.Walk.{walk};
ghost use Rattle.paper.specs.Words.{words_from};
ghost use Rattle.refusals.specs.Said.{answer_of};
ghost use Rattle.refusals.specs.declared.Refusal.TheVariants.{BadRecord};
ghost use Rattle.tables.specs.Answered.{Answered, AnsweredBytes};
ghost use Rattle.tables.specs.Usable.{Usable};
ghost use Rattle.answers.specs.Said.{line_said, written_said};

use answers::Verdict;
use line_checker::extend::find_extended;
use line_checker::line_check::check_by_records;
use line_checker::nodes::find_nodes;
use line_checker::room::{node_room, record_room};
use refusals::Refusal;
use tables::Layout;
use words::bytes::{put_words, words_from};

// Reads the first records into the room, and answers how many: all of them, or 2,561. More than stand in the bytes are refused.
fn read_records(records: &[u8], count: usize, room: &mut [u16]) -> Result<usize, Refusal>
    requires { length room.old ≡ 7683 }
    ensures { MatchResult result
        (λ read. (count ≤ length records.now / 2 / 3) × (read ≡ min count 2561)
        × (room.new ≡ sets room.old 0 (take (3 * min count 2561) (words_from records.now))))
        (λ x. (length records.now / 2 / 3 < count) × (x ≡ BadRecord (length records.now / 2 / 3))) }
{
    let whole = records.len() / 2 / 3;
    if whole < count {
        return Err(Refusal::BadRecord(whole));
    }
    let read = count.min(2561);
    words_from(&records[..6 * read], room);
    Ok(read)
}

// The check by records in bytes: refusals 8, 12, 13, then the walk.
pub fn check_by_records_bytes(
    b: &[u8],
    at: Layout,
    area: &mut [u16],
    records: &[u8],
    count: usize,
) -> Result<Verdict, Refusal>
    requires { Usable b.now area.old at }
    ensures { Answered at area.old area.new (line_said result)
        (rule8 count ∷ rule12 b.now area.old (words_from records.now) count
        ∷ rule13 b.now area.old (records_in (words_from records.now) count) ∷ [])
        (walk b.now area.old (records_in (words_from records.now) count)) }
{
    if count == 0 {
        return Err(Refusal::Empty);
    }
    // Room for a record of each line of the largest map, and one more.
    let mut words = [0u16; 7683];
    let read = read_records(records, count, &mut words)?;
    check_by_records(b, at, area, &words, read)
}

// Extends records in bytes by a node, in their own buffer: refusals 9, 12, 13, then 11.
pub fn extend_records_bytes(
    b: &[u8],
    at: Layout,
    area: &mut [u16],
    records: &mut [u8],
    count: usize,
    node: usize,
) -> Result<Option<usize>, Refusal>
    requires { Usable b.now area.old at }
    ensures { AnsweredBytes at area.old area.new (written_said result)
        (rule9 b.now (node ∷ []) ∷ rule12 b.now area.old (words_from records.old) count
        ∷ rule13 b.now area.old (records_in (words_from records.old) count)
        ∷ rule11 (whole_records (words_from records.old))
        (needed (extend b.now area.old (records_in (words_from records.old) count) node)) ∷ [])
        (said (extend b.now area.old (records_in (words_from records.old) count) node))
        records.old records.new
        (words_of (extend b.now area.old (records_in (words_from records.old) count) node)) }
{
    if at.sizes.nodes <= node {
        return Err(Refusal::Unknown(0));
    }
    // Room for a record of each line of the largest map, and one more.
    let mut words = [0u16; 7683];
    let read = read_records(records, count, &mut words)?;
    let mut room = record_room();
    let Some(made) = find_extended(b, at, area, &words, read, node, &mut room)? else {
        return Ok(None);
    };
    if records.len() / 2 / 3 < made {
        return Err(Refusal::TooLong(made));
    }
    put_words(&room[..3 * made], records);
    Ok(Some(made))
}

// The nodes in records in bytes, by position, then number, into a buffer of bytes: refusals 12, 13, 11.
pub fn nodes_of_records_bytes(
    b: &[u8],
    at: Layout,
    area: &mut [u16],
    records: &[u8],
    count: usize,
    buffer: &mut [u8],
) -> Result<usize, Refusal>
    requires { Usable b.now area.old at }
    ensures { AnsweredBytes at area.old area.new (answer_of result)
        (rule12 b.now area.old (words_from records.now) count
        ∷ rule13 b.now area.old (records_in (words_from records.now) count)
        ∷ rule11 (length (words_from buffer.old))
        (length (nodes_in b.now area.old (records_in (words_from records.now) count))) ∷ [])
        (length (nodes_in b.now area.old (records_in (words_from records.now) count)))
        buffer.old buffer.new
        (nodes_in b.now area.old (records_in (words_from records.now) count)) }
{
    // Room for a record of each line of the largest map, and one more.
    let mut words = [0u16; 7683];
    let read = read_records(records, count, &mut words)?;
    let mut room = node_room();
    let made = find_nodes(b, at, area, &words, read, &mut room)?;
    if buffer.len() / 2 < made {
        return Err(Refusal::TooLong(made));
    }
    put_words(&room[..made], buffer);
    Ok(made)
}
