// The question on an opened area: refusals 8, 9, 10, then 11.
ghost use Rattle.std.specs.Prelude.{[], ◌∷◌, ◌++◌, length};
ghost use Rattle.paper.specs.Calls.{line_rules};
ghost use Rattle.paper.specs.Path.{back_path, shown_of, steps_of};
ghost use Rattle.paper.specs.Refusals.{rule11};
ghost use Rattle.tables.specs.Answered.{AnsweredInto};
ghost use Rattle.tables.specs.Usable.{Usable};
ghost use Rattle.take_in.specs.Listed.{Listed, list_in};
ghost use Rattle.answers.specs.Said.{path_said};
ghost use Rattle.back_path.specs.Searched.{Searched};

use super::writing::{Back, write_path};
use distances::Search;
use distances::closing::close;
use distances::queue::{Queue, mark_list};
use neighbours::{Listing, lay_incoming, lay_outgoing};
use refusals::Refusal;
use tables::Layout;
use take_in::take_in;
use words::entries::Entries;

// Where the links stand that the search reads: by output port from step to step, and by input port on the way back.
#[derive(Clone, Copy)]
pub struct Room {
    pub targets: Listing,
    pub sources: Listing,
}

// Lays the links in the scratch, behind the nodes that are met, the list first, with a mark and a distance for each node.
fn lay(b: &[u8], at: Layout, area: &mut [u16]) -> Room
    requires { Usable b.now area.old at }
    ensures { Searched b.now area.old at result area.new }
{
    let firsts = at.scratch + 3 * at.sizes.nodes;
    let targets = lay_outgoing(b, at.sizes, area, firsts);
    let sources = lay_incoming(b, at.sizes, area, targets);
    Room { targets, sources }
}

// The path of a list that was taken in, whose `count` nodes stand in the scratch: 11 if it does not fit the buffer.
pub fn show_listed(
    b: &[u8],
    at: Layout,
    area: &mut [u16],
    count: usize,
    buffer: &mut [u16],
) -> Result<Option<usize>, Refusal>
    requires usable { Usable b.now area.old at }
    requires listed { Listed area.old at count }
    ensures { AnsweredInto at area.old area.new (path_said result)
        (rule11 (length buffer.old) (length (steps_of (back_path b.now (list_in area.old at count)))) ∷ [])
        (shown_of (back_path b.now (list_in area.old at count)))
        buffer.old buffer.new
        (steps_of (back_path b.now (list_in area.old at count))) }
{
    let room = lay(b, at, area);
    let queue = Queue {
        start: at.scratch,
        nodes: at.sizes.nodes,
    };
    mark_list(area, queue, count);
    let search = Search {
        sizes: at.sizes,
        start: queue.start,
        links: room.targets,
    };
    let Some((d, end)) = close(b, search, area, count) else {
        return Ok(None);
    };
    let steps = d + 2;
    if buffer.len() < steps {
        return Err(Refusal::TooLong(steps));
    }
    let back = Back {
        queue,
        firsts: room.sources.firsts,
        starts: room.sources.starts,
        sorted: room.sources.sorted,
    };
    write_path(b, area, back, end, d + 1, buffer);
    Ok(Some(steps))
}

// The path of a list: refusals 8, 9, 10, then 11.
pub fn show_path_of_list<E: Entries + Copy>(
    b: &[u8],
    at: Layout,
    area: &mut [u16],
    list: E,
    buffer: &mut [u16],
) -> Result<Option<usize>, Refusal>
    requires { Usable b.now area.old at }
    ensures { AnsweredInto at area.old area.new (path_said result)
        (line_rules b.now (E.entries list)
        ++ (rule11 (length buffer.old) (length (steps_of (back_path b.now (E.entries list)))) ∷ []))
        (shown_of (back_path b.now (E.entries list)))
        buffer.old buffer.new
        (steps_of (back_path b.now (E.entries list))) }
{
    let count = take_in(list, at.sizes.nodes, area, at.scratch)?;
    show_listed(b, at, area, count, buffer)
}
