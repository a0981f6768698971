// Runs a script on a device over an image under a window, a write guard and a cache, and prints what it answers.
#![tactic(auto)]

mod buffer;
mod build;
mod call;
mod case;
mod comparison;
mod files;
mod fill;
mod fnv;
mod holders;
mod line;
mod masters;
mod medium;
mod pile;
mod plan;
mod run;
mod say;
mod script;
mod session;
mod trouble;
mod words;

use run::{check_files, run};
use script::cases;
use std::io::{IsTerminal, LineWriter, Read};
use std::process::ExitCode;
use std::{env, fs, io};
use trouble::{Trouble, USAGE, unread};

/// The script's text on standard input. Whoever sits at a terminal is told that it is waited for.
fn typed(rt: &HostRuntime) -> Result<String, Trouble> {
    if rt.stdin().is_terminal() {
        let _ = eprintln!(rt; "{USAGE}; it is read from here until end of file");
    }
    let mut text = String::new(rt.alloc());
    match rt.stdin().read_to_string(&mut text) {
        Ok(_) => Ok(text),
        Err(e) => Err(unread(rt, "standard input", e)),
    }
}

/// The script: what the file holds that the argument names, or else standard input.
fn text(rt: &HostRuntime) -> Result<String, Trouble> {
    let mut args = env::args(rt)?;
    let _program = args.next();
    let Some(path) = args.next() else {
        return typed(rt);
    };
    if args.next().is_some() {
        return Err(Trouble::Usage);
    }
    let path = path.as_str();
    fs::read_to_string(rt, path).map_err(|e| unread(rt, path, e))
}

fn perform(rt: &HostRuntime) -> Result<(), Trouble> {
    let text = text(rt)?;
    let cases = cases(rt.alloc(), text.as_str())?;
    if cases.iter().all(|case| case.first().is_none()) {
        let _ = eprintln!(rt; "the script makes no call: nothing was done");
    }
    check_files(rt, cases.as_slice())?;
    let mut out = LineWriter::new(rt.alloc(), io::writer(rt))?;
    run(rt, &mut out, cases.as_slice())
}

fn main(rt: HostRuntime) -> ExitCode {
    match perform(&rt) {
        Ok(()) => ExitCode::SUCCESS,
        Err(trouble) => {
            let _ = eprintln!(rt; "{trouble}");
            ExitCode::FAILURE
        }
    }
}
