//! `openlink`: link resolving for OpenURL requests, from the command line.
#![tactic(auto)]

use commands::{System, carry_out, program_arguments};
use files::SystemFiles;
use http_streams::Loopback;
use kbart_rows::SystemKeys;
use std::process::ExitCode;

fn main(rt: HostRuntime) -> ExitCode {
    let mut system = System {
        files: SystemFiles::new(&rt),
        keys: SystemKeys::new(&rt),
        ports: Loopback::new(&rt),
        alloc: rt.alloc(),
    };
    let arguments = program_arguments(&rt);
    let status = carry_out(&mut system, arguments, &mut rt.stdout(), &mut rt.stderr());
    ExitCode::from(status)
}
