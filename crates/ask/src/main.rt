// The program `ask` on 01's own case: map B, and the lists `0 3`, `0 6`, an empty line and `3 3`.
#![tactic(auto)]

use asking::Program;
use std::io;

fn main(rt: HostRuntime) -> io::Result<()> {
    asking::run(&rt, Program::Ask)
}
