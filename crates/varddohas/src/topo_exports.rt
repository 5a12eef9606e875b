// The order checker exported. Both checks keep demand 3's promise in what a host hears from their numbers (`heard_order`).
ghost use Rattle.std.specs.Prelude.{◌≡◌, []};
ghost use Rattle.paper.specs.Calls.{topo_is_convex, topo_is_node_convex};
ghost use Rattle.paper.specs.Exports.{export, heard_order, in_reply};
ghost use Rattle.paper.specs.Promise.{KnownPorts, KnownSteps, OrderPortsPromise, OrderPromise, Trusted};
ghost use Rattle.paper.specs.Words.{words_from};

use byte_calls::topo_convex_checker::{is_convex, is_node_convex};
use crossing::{area_room, read_area};
use telling::tell_order;
use words::bytes::put_words;

// Order check: 1 yes, 2 no, or 3 refused (1 to 5, 7, 9).
#[unsafe(no_mangle)]
pub extern "C" fn varddohas_topo_is_node_convex(
    map: &[u8],
    area: &mut [u8],
    list: &[u8],
    number: &mut u64,
    place: &mut u64,
) -> u64
    ensures area_after { record { told = record { case = result; values = []; number = number.new; place = place.new }; area = area.new }
        ≡ export in_reply [] number.old place.old area.old
        (topo_is_node_convex map.now (words_from area.old) (words_from list.now)) }
    ensures order_promise { Trusted map.now (words_from area.old) → KnownSteps map.now (words_from list.now)
        → OrderPromise map.now (words_from list.now) (heard_order result number.new place.new) }
{
    let mut room = area_room();
    let words = read_area(area, &mut room);
    let answer = is_node_convex(map, &mut room[..words], list);
    put_words(&room[..words], area);
    tell_order(answer, number, place)
}

// Order check with ports: 1 yes, 2 no, or 3 refused (1 to 5, 7, 9, 14).
#[unsafe(no_mangle)]
pub extern "C" fn varddohas_topo_is_convex(
    map: &[u8],
    area: &mut [u8],
    list: &[u8],
    inputs: &[u8],
    outputs: &[u8],
    number: &mut u64,
    place: &mut u64,
) -> u64
    ensures area_after { record { told = record { case = result; values = []; number = number.new; place = place.new }; area = area.new }
        ≡ export in_reply [] number.old place.old area.old
        (topo_is_convex map.now (words_from area.old) (words_from list.now) (words_from inputs.now) (words_from outputs.now)) }
    ensures order_ports_promise { Trusted map.now (words_from area.old) → KnownSteps map.now (words_from list.now)
        → KnownPorts map.now (words_from inputs.now) → KnownPorts map.now (words_from outputs.now)
        → OrderPortsPromise map.now (words_from list.now) (words_from inputs.now) (words_from outputs.now)
        (heard_order result number.new place.new) }
{
    let mut room = area_room();
    let words = read_area(area, &mut room);
    let answer = is_convex(map, &mut room[..words], list, inputs, outputs);
    put_words(&room[..words], area);
    tell_order(answer, number, place)
}
