// Runs all operations on the cases of the case file in standard input.
// docs/FORMATS.md describes its lines.
#![tactic(auto)]

use running::run::run_input;
use std::io;

fn main(rt: HostRuntime) -> io::Result<()> {
    run_input(&rt)
}
