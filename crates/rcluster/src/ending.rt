//! How the program ends: what it prints then, and its status.

use clap::Error;
use clap::error::ErrorKind;
use program_fault::{Failure, ProgramFault};
use std::io;
use std::process::ExitCode;

// The status of a wrong command line.
const USAGE: u8 = 2;

/// The end of what the program was asked to do.
pub fn end(rt: &(impl Print + Eprint), outcome: Result<(), Failure>) -> io::Result<ExitCode> {
    match outcome {
        Ok(()) => Ok(ExitCode::SUCCESS),
        Err(failure) => print_failure(rt, &failure),
    }
}

/// The end by this fault, of which there is no more to say.
pub fn fail(rt: &(impl Print + Eprint), fault: ProgramFault) -> io::Result<ExitCode> {
    print_failure(rt, &Failure::from(fault))
}

/// The end where the command line is wrong, as the sentence says.
pub fn refuse(rt: &impl Eprint, wrong: &str) -> io::Result<ExitCode> {
    // The status tells, too, so standard error may be closed or full.
    let _told = eprintln!(rt; "error: {wrong}\n\nFor more information, try '--help'.");
    Ok(ExitCode::from(USAGE))
}

/// The end where the command line is wrong, or asks for help.
pub fn explain(rt: &(impl Print + Eprint), error: &Error) -> io::Result<ExitCode> {
    if error.kind() == ErrorKind::OutOfMemory {
        return fail(rt, ProgramFault::Memory);
    }
    let status = error.exit_code() as u8;
    if error.print(rt).is_err() && status == 0 {
        return fail(rt, ProgramFault::Output);
    }
    Ok(ExitCode::from(status))
}

/// The end where the words of the command line can't be had.
pub fn explain_words(rt: &(impl Print + Eprint), error: &io::Error) -> io::Result<ExitCode> {
    if error.kind() == io::ErrorKind::InvalidData {
        return refuse(rt, "a word of the command line isn't UTF-8");
    }
    fail(rt, ProgramFault::Memory)
}

// The code goes to the output, and a sentence for people to standard error, which may be closed or full.
fn print_failure(rt: &(impl Print + Eprint), failure: &Failure) -> io::Result<ExitCode> {
    let _told = eprintln!(rt; "{failure}");
    print_fault(rt, failure.fault)?;
    Ok(ExitCode::FAILURE)
}

fn print_fault(rt: &impl Print, fault: ProgramFault) -> io::Result<()> {
    match fault {
        // Where the output can't be written, nothing is printed there.
        ProgramFault::Output => Ok(()),
        fault => println!(rt; "{fault}"),
    }
}
