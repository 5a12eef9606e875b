// Taking in a caller's list: refusals 8, 9 and 10 in one step, for a list of any length, however it came. What passes stands in the area as at
// most n nodes, each once, and nothing later sees the caller's list.
#![tactic(auto)]

ghost use Rattle.std.specs.Prelude.{◌≡◌, ◌≢◌, ◌+◌, ◌*◌, ◌<◌, ◌≤◌, leb, length};
ghost use Rattle.lists.specs.Found.{absent, found_of};
ghost use Rattle.paper.specs.Refusals.{earliest};
ghost use Rattle.take_in.specs.Taking.{Known, Taking, Took};
ghost use Rattle.take_in.specs.Said.{EachTaken, TakenIn};

use refusals::Refusal;
use words::entries::Entries;
use words::section::fill;

// The first entry that is no node of n.
fn first_unknown<E: Entries + Copy>(list: E, n: usize) -> Option<usize>
    ensures { found_of result ≡ earliest (leb n) (E.entries list) }
{
    for i in 0..list.count() {
        if usize::from(list.entry(i)) >= n {
            return Some(i);
        }
    }
    None
}

// Takes in node v after `taken` others, and marks it. Says no, and writes nothing, where v is one of them.
fn take_node(area: &mut [u16], at: usize, n: usize, taken: usize, v: u16) -> bool
    requires taking { Taking n at taken area.old }
    requires v_lt_n { v < n }
    ensures { Took n at taken v area.old result area.new }
{
    let mark = at + n + usize::from(v);
    if area[mark] == 1 {
        return false;
    }
    area[at + taken] = v;
    area[mark] = 1;
    true
}

// Takes in the entries of a list of nodes until one stands a second time: that one's place.
fn take_each<E: Entries + Copy>(list: E, n: usize, area: &mut [u16], at: usize) -> Option<usize>
    requires known { Known n (E.entries list) }
    requires taking { Taking n at 0 area.old }
    ensures { EachTaken n (E.entries list) area.old at result area.new }
{
    for i in 0..list.count() {
        if !take_node(area, at, n, i, list.entry(i)) {
            return Some(i);
        }
    }
    None
}

// Takes in a list that is not empty and has only nodes: 10 comes at the latest at entry n.
fn take_known<E: Entries + Copy>(
    list: E,
    n: usize,
    area: &mut [u16],
    at: usize,
) -> Result<usize, Refusal>
    requires n_in_bounds { at + 2 * n ≤ length area.old }
    requires list_nonzero { length (E.entries list) ≢ 0 }
    requires absent_value { absent ≡ earliest (leb n) (E.entries list) }
    ensures { TakenIn n (E.entries list) area.old at result area.new }
{
    fill(area, at + n, n, 0);
    match take_each(list, n, area, at) {
        None => Ok(list.count()),
        Some(i) => Err(Refusal::Repeated(i)),
    }
}

// Takes in a list: its nodes stand from `at` on, and after n words their marks. Answers how many nodes there are, or refusal 8, 9 or 10. 9 anywhere comes
// before 10 anywhere, so the whole list is looked through for an unknown node first.
pub fn take_in<E: Entries + Copy>(
    list: E,
    n: usize,
    area: &mut [u16],
    at: usize,
) -> Result<usize, Refusal>
    requires { at + 2 * n ≤ length area.old }
    ensures { TakenIn n (E.entries list) area.old at result area.new }
{
    if list.count() == 0 {
        return Err(Refusal::Empty);
    }
    match first_unknown(list, n) {
        None => take_known(list, n, area, at),
        Some(i) => Err(Refusal::Unknown(i)),
    }
}
