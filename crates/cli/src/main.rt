//! The program `roadesk`, a hosted route origin authorization desk.
#![tactic(auto)]

use cli_tasks::fault::fault_of_error;
use cli_tasks::{Host, run_task};
use cli_texts::{ProgramFault, read_words};
use std::env;
use std::process::ExitCode;
use std::rt::HostRuntime;

fn main(rt: HostRuntime) -> ExitCode {
    match run_program(&rt) {
        Ok(()) => ExitCode::SUCCESS,
        Err(fault) => {
            // If standard error fails too, the status is all that is left.
            let _ = eprintln!(rt; "{}", fault.line().as_str());
            ExitCode::from(fault.status())
        }
    }
}

fn run_program(rt: &HostRuntime) -> Result<(), ProgramFault> {
    let args = match env::args(rt) {
        Ok(args) => args,
        Err(error) => return Err(fault_of_error(&error, ProgramFault::Words)),
    };
    let args = args.skip(1).collect::<Vec<_>>(rt.alloc())?;
    let mut words = Vec::with_capacity(rt.alloc(), args.len())?;
    for arg in &args {
        words.push(arg.as_str()).map_err(|_| ProgramFault::Memory)?;
    }
    match read_words(&words) {
        Ok(task) => run_task(rt, &task, &mut Host(rt)),
        Err(fault) => Err(ProgramFault::from(fault)),
    }
}
