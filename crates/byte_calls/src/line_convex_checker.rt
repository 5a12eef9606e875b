// The line checker's calls on lists, records and buffers whose words cross as bytes; the area is one of words (the exports read it from bytes).
ghost use Rattle.std.specs.Prelude.{◌≡◌};
ghost use Rattle.paper.specs.Calls.{
  is_node_convex,
  is_convex,
  is_convex_by_intervals,
  get_intervals_from_nodes,
  try_extend_intervals,
  nodes_in_intervals,
  view_at,
};
ghost use Rattle.paper.specs.Words.{words_from};
ghost use Rattle.refusals.specs.Said.{answer_of};
ghost use Rattle.answers.specs.Said.{line_said, written_said};
ghost use Rattle.byte_calls.specs.Buffered.{buffered};

use answers::Verdict;
use byte_records::{check_by_records_bytes, extend_records_bytes, nodes_of_records_bytes};
use line_checker::line_check::check_list;
use line_checker::list_intervals::intervals_of_list_bytes;
use opening::ends::clear_scratch;
use opening::{open, open_shared};
use port_lines::{line_count, view_start};
use refusals::Refusal;
use with_ports::check_list_with_ports;

// Line check of a list in bytes.
pub fn is_node_convex(map: &[u8], area: &mut [u16], list: &[u8]) -> Result<Verdict, Refusal>
    ensures { record { answer = line_said result; area = area.new }
        ≡ is_node_convex map.now area.old (words_from list.now) }
{
    let at = open(map, area)?;
    let checked = check_list(map, at, area, list);
    clear_scratch(area, at);
    checked
}

// Line check with ports, all lists in bytes.
pub fn is_convex(
    map: &[u8],
    area: &mut [u16],
    list: &[u8],
    inputs: &[u8],
    outputs: &[u8],
) -> Result<Verdict, Refusal>
    ensures { record { answer = line_said result; area = area.new }
        ≡ is_convex map.now area.old (words_from list.now) (words_from inputs.now) (words_from outputs.now) }
{
    let at = open(map, area)?;
    let ported = check_list_with_ports(map, at, area, list, inputs, outputs);
    clear_scratch(area, at);
    ported
}

// Check by records in bytes.
pub fn is_convex_by_intervals(
    map: &[u8],
    area: &mut [u16],
    records: &[u8],
    count: usize,
) -> Result<Verdict, Refusal>
    ensures { record { answer = line_said result; area = area.new }
        ≡ is_convex_by_intervals map.now area.old (words_from records.now) count }
{
    let at = open(map, area)?;
    let recorded = check_by_records_bytes(map, at, area, records, count);
    clear_scratch(area, at);
    recorded
}

// Intervals of a list in bytes, written to a buffer of bytes.
pub fn get_intervals_from_nodes(
    map: &[u8],
    area: &mut [u16],
    list: &[u8],
    buffer: &mut [u8],
) -> Result<Option<usize>, Refusal>
    ensures { record { answer = written_said result; area = area.new; buffer = buffer.new }
        ≡ buffered buffer.old (get_intervals_from_nodes map.now area.old (words_from list.now) (words_from buffer.old)) }
{
    let at = open(map, area)?;
    let written = intervals_of_list_bytes(map, at, area, list, buffer);
    clear_scratch(area, at);
    written
}

// Extend: `count` records in bytes by one node, in their own buffer.
pub fn try_extend_intervals(
    map: &[u8],
    area: &mut [u16],
    records: &mut [u8],
    count: usize,
    node: usize,
) -> Result<Option<usize>, Refusal>
    ensures { record { answer = written_said result; area = area.new; buffer = records.new }
        ≡ buffered records.old (try_extend_intervals map.now area.old (words_from records.old) count node) }
{
    let at = open(map, area)?;
    let extended = extend_records_bytes(map, at, area, records, count, node);
    clear_scratch(area, at);
    extended
}

// Nodes in records in bytes, written to a buffer of bytes.
pub fn nodes_in_intervals(
    map: &[u8],
    area: &mut [u16],
    records: &[u8],
    count: usize,
    buffer: &mut [u8],
) -> Result<usize, Refusal>
    ensures { record { answer = answer_of result; area = area.new; buffer = buffer.new }
        ≡ buffered buffer.old (nodes_in_intervals map.now area.old (words_from records.now) count (words_from buffer.old)) }
{
    let at = open(map, area)?;
    let found = nodes_of_records_bytes(map, at, area, records, count, buffer);
    clear_scratch(area, at);
    found
}

// Where the lines at a port stand in the area: the word that they start at, and how many there are. Nothing is written.
pub fn view_at_port(map: &[u8], area: &[u16], port: usize) -> Result<(usize, usize), Refusal>
    ensures { answer_of result ≡ view_at map.now area.now port }
{
    let at = open_shared(map, area)?;
    if at.sizes.ports <= port {
        return Err(Refusal::UnknownPort(0));
    }
    let offset = view_start(map, at, area, port);
    let count = line_count(map, at.sizes, port);
    Ok((offset, count))
}
