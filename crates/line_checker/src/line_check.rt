// Translated from src/algorithms/convex/line_convex_checker.rs of portgraph (88172a3c8e, Apache-2.0, see NOTICE), and changed:
// `is_node_convex` and `is_convex_by_intervals` refuse what 01 refuses, and answer the walk's count.
ghost use Rattle.std.specs.Prelude.{◌≡◌, [], ◌∷◌};
ghost use Rattle.paper.specs.Calls.{line_rules};
ghost use Rattle.paper.specs.Records.{records_in};
ghost use Rattle.paper.specs.Refusals.{rule8, rule12, rule13};
ghost use Rattle.paper.specs.Walk.{line_check, walk as walk_of};
ghost use Rattle.tables.specs.Answered.{Answered};
ghost use Rattle.tables.specs.Usable.{Scratched, Usable};
ghost use Rattle.take_in.specs.Listed.{Listed, list_in};
ghost use Rattle.answers.specs.Said.{line_said, verdict_said};

use super::room::record_room;
use answers::Verdict;
use intervals::get_intervals;
use records::check_records;
use records::layout::lay_slots;
use refusals::Refusal;
use tables::Layout;
use take_in::take_in;
use walk::walk;
use words::entries::Entries;

// The line check of the `count` nodes that stand in the scratch: no with count 0 when they are not contiguous; else the queue walk.
fn check_listed(b: &[u8], at: Layout, area: &mut [u16], count: usize) -> Verdict
    requires usable { Usable b.now area.old at }
    requires listed { Listed area.old at count }
    ensures says { verdict_said result ≡ line_check b.now area.old (list_in area.old at count) }
    ensures kept { Scratched at area.old area.new }
{
    let mut room = record_room();
    let Some(made) = get_intervals(b, at, area, count, &mut room) else {
        return Verdict::No(0);
    };
    walk(b, at, area, &room, made)
}

// The line check of a list: refusals 8, 9, 10, then the check of its nodes.
pub fn check_list<E: Entries + Copy>(
    b: &[u8],
    at: Layout,
    area: &mut [u16],
    list: E,
) -> Result<Verdict, Refusal>
    requires { Usable b.now area.old at }
    ensures { Answered at area.old area.new (line_said result)
        (line_rules b.now (E.entries list)) (line_check b.now area.old (E.entries list)) }
{
    let count = take_in(list, at.sizes.nodes, area, at.scratch)?;
    Ok(check_listed(b, at, area, count))
}

// The check by records: refusals 8, 12, 13, then the same walk.
pub fn check_by_records(
    b: &[u8],
    at: Layout,
    area: &mut [u16],
    records: &[u16],
    count: usize,
) -> Result<Verdict, Refusal>
    requires { Usable b.now area.old at }
    ensures { Answered at area.old area.new (line_said result)
        (rule8 count ∷ rule12 b.now area.old records.now count
        ∷ rule13 b.now area.old (records_in records.now count) ∷ [])
        (walk_of b.now area.old (records_in records.now count)) }
{
    if count == 0 {
        return Err(Refusal::Empty);
    }
    let slots = lay_slots(at);
    check_records(b, at, area, slots, records, count)?;
    Ok(walk(b, at, area, records, count))
}
