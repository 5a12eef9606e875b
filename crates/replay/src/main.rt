// Holds the port against the recorded answers of the Rust.
#![tactic(auto)]

use std::io;

fn main(rt: HostRuntime) -> io::Result<()> {
    replaying::run(&rt)
}
