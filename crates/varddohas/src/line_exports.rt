// The line checker exported. The two checks of a list keep demand 3's promise in what a host hears from their numbers (`heard_line`).
ghost use Rattle.std.specs.Prelude.{◌≡◌, [], ◌∷◌};
ghost use Rattle.paper.specs.Calls.{
  is_node_convex,
  is_convex,
  is_convex_by_intervals,
  get_intervals_from_nodes,
  try_extend_intervals,
  nodes_in_intervals,
  lines_at_port,
  view_at,
};
ghost use Rattle.paper.specs.Exports.{export, export_with, heard_line, in_count, in_line_reply, in_pair, in_written, tell};
ghost use Rattle.paper.specs.Promise.{KnownPorts, LinePortsPromise, LinePromise, StepList, Trusted};
ghost use Rattle.paper.specs.Words.{words_from};

use byte_calls::line_convex_checker::{
    get_intervals_from_nodes, is_convex, is_convex_by_intervals, is_node_convex,
    nodes_in_intervals, try_extend_intervals, view_at_port,
};
use convex::line_convex_checker::lines_at_port;
use crossing::{area_room, read_area};
use telling::{tell_count, tell_line, tell_port, tell_written};
use words::bytes::put_words;

// Line check: 1 yes or 2 no with the count, or 3 refused (1 to 5, 7, 8, 9, 10).
#[unsafe(no_mangle)]
pub extern "C" fn varddohas_line_is_node_convex(
    map: &[u8],
    area: &mut [u8],
    list: &[u8],
    count: &mut u64,
    number: &mut u64,
    place: &mut u64,
) -> u64
    ensures area_after { record { told = record { case = result; values = count.new ∷ []; number = number.new; place = place.new }; area = area.new }
        ≡ export in_line_reply (count.old ∷ []) number.old place.old area.old
        (is_node_convex map.now (words_from area.old) (words_from list.now)) }
    ensures line_promise { Trusted map.now (words_from area.old) → StepList map.now (words_from list.now)
        → LinePromise map.now (words_from area.old) (words_from list.now)
        (heard_line result count.new number.new place.new) }
{
    let mut room = area_room();
    let words = read_area(area, &mut room);
    let answer = is_node_convex(map, &mut room[..words], list);
    put_words(&room[..words], area);
    tell_line(answer, count, number, place)
}

// Line check with ports: 1 yes or 2 no with the count, or 3 refused (1 to 5, 7, 8, 9, 10, 14).
#[unsafe(no_mangle)]
pub extern "C" fn varddohas_line_is_convex(
    map: &[u8],
    area: &mut [u8],
    list: &[u8],
    inputs: &[u8],
    outputs: &[u8],
    count: &mut u64,
    number: &mut u64,
    place: &mut u64,
) -> u64
    ensures area_after { record { told = record { case = result; values = count.new ∷ []; number = number.new; place = place.new }; area = area.new }
        ≡ export in_line_reply (count.old ∷ []) number.old place.old area.old
        (is_convex map.now (words_from area.old) (words_from list.now) (words_from inputs.now) (words_from outputs.now)) }
    ensures line_ports_promise { Trusted map.now (words_from area.old) → StepList map.now (words_from list.now)
        → KnownPorts map.now (words_from inputs.now) → KnownPorts map.now (words_from outputs.now)
        → LinePortsPromise map.now (words_from area.old) (words_from list.now) (words_from inputs.now) (words_from outputs.now)
        (heard_line result count.new number.new place.new) }
{
    let mut room = area_room();
    let words = read_area(area, &mut room);
    let answer = is_convex(map, &mut room[..words], list, inputs, outputs);
    put_words(&room[..words], area);
    tell_line(answer, count, number, place)
}

// Check by records, of which `many` stand in the bytes: 1 yes or 2 no with the count, or 3 refused (1 to 5, 7, 8, 12, 13).
#[unsafe(no_mangle)]
pub extern "C" fn varddohas_is_convex_by_intervals(
    map: &[u8],
    area: &mut [u8],
    records: &[u8],
    many: usize,
    count: &mut u64,
    number: &mut u64,
    place: &mut u64,
) -> u64
    ensures { record { told = record { case = result; values = count.new ∷ []; number = number.new; place = place.new }; area = area.new }
        ≡ export in_line_reply (count.old ∷ []) number.old place.old area.old
        (is_convex_by_intervals map.now (words_from area.old) (words_from records.now) many) }
{
    let mut room = area_room();
    let words = read_area(area, &mut room);
    let answer = is_convex_by_intervals(map, &mut room[..words], records, many);
    put_words(&room[..words], area);
    tell_line(answer, count, number, place)
}

// Intervals: 1 with how many records were written, 2 not contiguous, or 3 refused (1 to 5, 7, 9, 10, 11).
#[unsafe(no_mangle)]
pub extern "C" fn varddohas_get_intervals_from_nodes(
    map: &[u8],
    area: &mut [u8],
    list: &[u8],
    buffer: &mut [u8],
    count: &mut u64,
    number: &mut u64,
    place: &mut u64,
) -> u64
    ensures { record { told = record { case = result; values = count.new ∷ []; number = number.new; place = place.new }; area = area.new; buffer = buffer.new }
        ≡ export_with in_written (count.old ∷ []) number.old place.old area.old buffer.old
        (get_intervals_from_nodes map.now (words_from area.old) (words_from list.now) (words_from buffer.old)) }
{
    let mut room = area_room();
    let words = read_area(area, &mut room);
    let answer = get_intervals_from_nodes(map, &mut room[..words], list, buffer);
    put_words(&room[..words], area);
    tell_written(answer, count, number, place)
}

// Extend: 1 with how many records there are then, 2 not extendable, or 3 refused (1 to 5, 7, 9, 12, 13, 11).
#[unsafe(no_mangle)]
pub extern "C" fn varddohas_try_extend_intervals(
    map: &[u8],
    area: &mut [u8],
    records: &mut [u8],
    many: usize,
    node: usize,
    count: &mut u64,
    number: &mut u64,
    place: &mut u64,
) -> u64
    ensures { record { told = record { case = result; values = count.new ∷ []; number = number.new; place = place.new }; area = area.new; buffer = records.new }
        ≡ export_with in_written (count.old ∷ []) number.old place.old area.old records.old
        (try_extend_intervals map.now (words_from area.old) (words_from records.old) many node) }
{
    let mut room = area_room();
    let words = read_area(area, &mut room);
    let answer = try_extend_intervals(map, &mut room[..words], records, many, node);
    put_words(&room[..words], area);
    tell_written(answer, count, number, place)
}

// Nodes in records: 1 with how many were written, or 3 refused (1 to 5, 7, 12, 13, 11).
#[unsafe(no_mangle)]
pub extern "C" fn varddohas_nodes_in_intervals(
    map: &[u8],
    area: &mut [u8],
    records: &[u8],
    many: usize,
    buffer: &mut [u8],
    count: &mut u64,
    number: &mut u64,
    place: &mut u64,
) -> u64
    ensures { record { told = record { case = result; values = count.new ∷ []; number = number.new; place = place.new }; area = area.new; buffer = buffer.new }
        ≡ export_with in_count (count.old ∷ []) number.old place.old area.old buffer.old
        (nodes_in_intervals map.now (words_from area.old) (words_from records.now) many (words_from buffer.old)) }
{
    let mut room = area_room();
    let words = read_area(area, &mut room);
    let answer = nodes_in_intervals(map, &mut room[..words], records, many, buffer);
    put_words(&room[..words], area);
    tell_count(answer, count, number, place)
}

// Lines at a port: 1 with the first one's place in its node's list and the count, or 3 refused (1 to 5, 7, 14).
#[unsafe(no_mangle)]
pub extern "C" fn varddohas_lines_at_port(
    map: &[u8],
    area: &mut [u8],
    port: usize,
    first: &mut u64,
    count: &mut u64,
    number: &mut u64,
    place: &mut u64,
) -> u64
    ensures { record { told = record { case = result; values = first.new ∷ (count.new ∷ []); number = number.new; place = place.new }; area = area.new }
        ≡ export in_pair (first.old ∷ (count.old ∷ [])) number.old place.old area.old
        (lines_at_port map.now (words_from area.old) port) }
{
    let mut room = area_room();
    let words = read_area(area, &mut room);
    let answer = lines_at_port(map, &mut room[..words], port);
    put_words(&room[..words], area);
    tell_port(answer, first, count, number, place)
}

// The lines at a port themselves, as a part of the area: 1 with the word that it starts at and how many words it has, or 3 refused (1 to 5, 7, 14).
// Nothing is written to the area.
#[unsafe(no_mangle)]
pub extern "C" fn varddohas_view_lines_at_port(
    map: &[u8],
    area: &[u8],
    port: usize,
    offset: &mut u64,
    count: &mut u64,
    number: &mut u64,
    place: &mut u64,
) -> u64
    ensures { record { case = result; values = offset.new ∷ (count.new ∷ []); number = number.new; place = place.new }
        ≡ tell in_pair (view_at map.now (words_from area.now) port)
        (offset.old ∷ (count.old ∷ [])) number.old place.old }
{
    let mut room = area_room();
    let words = read_area(area, &mut room);
    let answer = view_at_port(map, &room[..words], port);
    tell_port(answer, offset, count, number, place)
}
