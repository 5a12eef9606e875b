// Translated from src/algorithms/convex/line_convex_checker.rs of portgraph (88172a3c8e, Apache-2.0, see NOTICE), and changed: each call opens
// the map and its tables anew, refuses what 01 refuses, and leaves the scratch at 0.
ghost use Rattle.std.specs.Prelude.{◌≡◌};
ghost use Rattle.paper.specs.Calls.{
  is_node_convex,
  is_convex,
  is_convex_by_intervals,
  get_intervals_from_nodes,
  try_extend_intervals,
  nodes_in_intervals,
  lines_at_port,
  view_at,
  part_at,
  view_of_port,
};
ghost use Rattle.paper.specs.Promise.{KnownPorts, LinePortsPromise, LinePromise, StepList, Trusted};
ghost use Rattle.refusals.specs.Said.{answer_of};
ghost use Rattle.answers.specs.Said.{line_said, written_said};
ghost use Rattle.port_lines.specs.Place.{StartsAt};

use answers::Verdict;
use line_checker::extend::extend_records;
use line_checker::line_check::{check_by_records, check_list};
use line_checker::list_intervals::intervals_of_list;
use line_checker::nodes::nodes_of_records;
use opening::ends::clear_scratch;
use opening::{open, open_shared};
use port_lines::{first_line, line_count, lines_at_port as view};
use refusals::Refusal;
use with_ports::check_list_with_ports;

// Line check: whether a list of nodes is convex, and how many nodes the walk counted (the Rust's `is_node_convex`). Refusals 1 to 5, 7, 8, 9, 10.
pub fn is_node_convex(map: &[u8], area: &mut [u16], list: &[u16]) -> Result<Verdict, Refusal>
    ensures area_after { record { answer = line_said result; area = area.new }
        ≡ is_node_convex map.now area.old list.now }
    ensures line_promise { Trusted map.now area.old → StepList map.now list.now
        → LinePromise map.now area.old list.now (line_said result) }
{
    let at = open(map, area)?;
    let checked = check_list(map, at, area, list);
    clear_scratch(area, at);
    checked
}

// Line check with ports: no, with count 0, if a listed input is the other end of the first link of a listed output; else the line check (the Rust's
// `is_convex`). Refusals 1 to 5, 7, 8, 9, 10, 14.
pub fn is_convex(
    map: &[u8],
    area: &mut [u16],
    list: &[u16],
    inputs: &[u16],
    outputs: &[u16],
) -> Result<Verdict, Refusal>
    ensures area_after { record { answer = line_said result; area = area.new }
        ≡ is_convex map.now area.old list.now inputs.now outputs.now }
    ensures line_ports_promise { Trusted map.now area.old → StepList map.now list.now
        → KnownPorts map.now inputs.now → KnownPorts map.now outputs.now
        → LinePortsPromise map.now area.old list.now inputs.now outputs.now (line_said result) }
{
    let at = open(map, area)?;
    let ported = check_list_with_ports(map, at, area, list, inputs, outputs);
    clear_scratch(area, at);
    ported
}

// Check by records: the same walk on `count` given records (the Rust's `is_convex_by_intervals`). Refusals 1 to 5, 7, 8, 12, 13.
pub fn is_convex_by_intervals(
    map: &[u8],
    area: &mut [u16],
    records: &[u16],
    count: usize,
) -> Result<Verdict, Refusal>
    ensures { record { answer = line_said result; area = area.new }
        ≡ is_convex_by_intervals map.now area.old records.now count }
{
    let at = open(map, area)?;
    let recorded = check_by_records(map, at, area, records, count);
    clear_scratch(area, at);
    recorded
}

// Intervals of a list, written to the buffer as records of three words (the Rust's `get_intervals_from_nodes`). Refusals 1 to 5, 7, 9, 10, 11.
pub fn get_intervals_from_nodes(
    map: &[u8],
    area: &mut [u16],
    list: &[u16],
    buffer: &mut [u16],
) -> Result<Option<usize>, Refusal>
    ensures { record { answer = written_said result; area = area.new; buffer = buffer.new }
        ≡ get_intervals_from_nodes map.now area.old list.now buffer.old }
{
    let at = open(map, area)?;
    let written = intervals_of_list(map, at, area, list, buffer);
    clear_scratch(area, at);
    written
}

// Extend: `count` records by one node, in their own buffer (the Rust's `try_extend_intervals`). Refusals 1 to 5, 7, 9, 12, 13, 11.
pub fn try_extend_intervals(
    map: &[u8],
    area: &mut [u16],
    records: &mut [u16],
    count: usize,
    node: usize,
) -> Result<Option<usize>, Refusal>
    ensures { record { answer = written_said result; area = area.new; buffer = records.new }
        ≡ try_extend_intervals map.now area.old records.old count node }
{
    let at = open(map, area)?;
    let extended = extend_records(map, at, area, records, count, node);
    clear_scratch(area, at);
    extended
}

// Nodes in records, by position, then number (the Rust's `nodes_in_intervals`). Refusals 1 to 5, 7, 12, 13, 11.
pub fn nodes_in_intervals(
    map: &[u8],
    area: &mut [u16],
    records: &[u16],
    count: usize,
    buffer: &mut [u16],
) -> Result<usize, Refusal>
    ensures { record { answer = answer_of result; area = area.new; buffer = buffer.new }
        ≡ nodes_in_intervals map.now area.old records.now count buffer.old }
{
    let at = open(map, area)?;
    let found = nodes_of_records(map, at, area, records, count, buffer);
    clear_scratch(area, at);
    found
}

// Lines at a port: the first one's place in its node's list, and how many (the Rust's `lines_at_port`). Refusals 1 to 5, 7, 14.
pub fn lines_at_port(map: &[u8], area: &mut [u16], port: usize) -> Result<(usize, usize), Refusal>
    ensures { record { answer = answer_of result; area = area.new } ≡ lines_at_port map.now area.old port }
{
    let at = open(map, area)?;
    if at.sizes.ports <= port {
        return Err(Refusal::UnknownPort(0));
    }
    let first = first_line(map, at.sizes, port);
    let count = line_count(map, at.sizes, port);
    Ok((first, count))
}

// The lines at a port themselves, as a part of the area: empty on refusal, and nothing is written. What is returned stands in the area itself.
pub fn view_lines_at_port<'a>(map: &[u8], area: &'a [u16], port: usize) -> &'a [u16]
    ensures result_value { result.now ≡ view_of_port map.now area.now port }
    ensures starts_at { StartsAt result area.entry (part_at (view_at map.now area.now port)).0 }
{
    let Ok(at) = open_shared(map, area) else {
        return &area[0..0];
    };
    if at.sizes.ports <= port {
        return &area[0..0];
    }
    view(map, at, area, port)
}
