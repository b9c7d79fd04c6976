// The program sheetrun. The work is crate `sheetlog`.
#![tactic(auto)]

use std::process::ExitCode;

fn main(rt: HostRuntime) -> ExitCode {
    sheetlog::sheetrun(&rt)
}
