// The program `why` on map B of 01: a path, no path, refusals 8, 9 and 10, and a bad text.
#![tactic(auto)]

use asking::Program;
use std::io;

fn main(rt: HostRuntime) -> io::Result<()> {
    asking::run(&rt, Program::Why)
}
