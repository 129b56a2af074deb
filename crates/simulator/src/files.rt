//! Scripts in files, played in the cluster of another file.

use crate::bad_lines::no_step;
use crate::fault::SimulationFault;
use crate::simulation::simulate;
use inputs::{InputFailure, read_cluster, unreadable};
use program_fault::{Failure, ProgramFault};
use resp2::Counting;
use std::alloc::{AllocError, Global};
use std::rt::Files;
use std::{fs, io};

/// Plays the script in the cluster that the file describes, and prints what comes out of each step.
pub fn simulate_file<R: Files + AllocGlobal + Print>(
    rt: &R,
    config: &str,
    script: &str,
) -> Result<(), Failure> {
    let config = read_cluster(rt, config)?;
    let mut file = Counting::new(open_script(rt, script)?);
    let mut out = Counting::new(io::writer(rt));
    match simulate(rt.alloc(), &config, &mut file, &mut out) {
        Ok(()) => Ok(()),
        Err(fault) => Err(failure_of(rt.alloc(), script, fault)),
    }
}

// What the program tells of the fault.
fn failure_of(alloc: Global, path: &str, fault: SimulationFault) -> Failure {
    match fault {
        SimulationFault::Memory => Failure::from(AllocError),
        SimulationFault::Unreadable(error) => Failure::from(unreadable(alloc, path, &error)),
        SimulationFault::Line { number, text } => {
            Failure::from(no_step(alloc, path, number, text.as_slice()))
        }
        SimulationFault::Unwritten(_) => Failure::from(ProgramFault::Output),
    }
}

// The file of a script, at its beginning.
fn open_script<R: Files + AllocGlobal>(rt: &R, path: &str) -> Result<R::File, InputFailure> {
    match fs::open(rt, path) {
        Ok(file) => Ok(file),
        Err(error) => Err(unreadable(rt.alloc(), path, &error)),
    }
}
