// Runs the stored cases of preparing.
#![tactic(auto)]

use std::io;

fn main(rt: HostRuntime) -> io::Result<()> {
    prepare_cases::run(&rt)
}
