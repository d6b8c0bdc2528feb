// Reads a script and prints what its model answers: a file, or standard input where none is named.
#![tactic(auto)]

mod answer;
mod arguments;
mod asking;
mod changing;
mod command;
mod console;
mod expected;
mod failure;
mod fault;
mod from_numbers;
mod making;
mod part;
mod reading;
mod running;
mod script;
mod state;
mod stop;
mod words;

use arguments::{Arguments, read_arguments};
use console::Console;
use failure::Failure;
use part::run_script;
use script::Script;
use std::env;
use std::fs::File;
use std::io::Read;
use std::process::ExitCode;
use stop::Stop;

fn run_input<R: Read + Drop>(rt: &HostRuntime, says: bool, input: R) -> Result<(), Failure> {
    let mut console = Console::new(rt, says);
    let mut script = Script::new(rt.alloc(), input)?;
    run_script(&mut console, &mut script).map_err(|stop| match stop {
        Stop::BadLine(expected) => Failure::BadLine {
            line: script.line_number(),
            expected,
        },
        Stop::Io(error) => Failure::Io(error),
    })
}

fn run(rt: &HostRuntime) -> Result<(), Failure> {
    let Arguments { says, path } = read_arguments(env::args(rt)?).ok_or(Failure::Usage)?;
    match path {
        Some(path) => run_input(rt, says, File::open(rt, path.as_str())?),
        None => run_input(rt, says, rt.stdin()),
    }
}

fn main(rt: HostRuntime) -> ExitCode {
    match run(&rt) {
        Ok(()) => ExitCode::SUCCESS,
        Err(failure) => {
            let _ = rt.eprintln(failure);
            ExitCode::FAILURE
        }
    }
}
