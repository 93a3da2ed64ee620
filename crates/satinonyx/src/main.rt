// Evaluates jobs over wheel-speed traces; `satinonyx help` lists the commands.
#![tactic(auto)]

use std::process::ExitCode;

fn main(rt: HostRuntime) -> ExitCode {
    console::run(&rt)
}
