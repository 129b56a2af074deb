//! The files that the program reads.

use crate::failure::{InputFailure, InputFault};
use cluster_config::Config;
use config_report::report;
use config_text::{ConfigFault, read_config};
use std::alloc::{AllocError, Global};
use std::io::ErrorKind;
use std::rt::Files;
use std::{fs, io};

/// The cluster that the file describes.
pub fn read_cluster<R: Files + AllocGlobal>(rt: &R, path: &str) -> Result<Config, InputFailure> {
    let alloc = rt.alloc();
    let text = read_file(rt, path)?;
    match read_config(alloc, text.as_slice()) {
        Ok(config) => Ok(config),
        Err(fault) => {
            let detail = report_in(alloc, path, text.as_slice(), fault);
            Err(InputFailure::new(InputFault::Config(fault), detail))
        }
    }
}

/// That the file can't be read, and why.
pub fn unreadable(alloc: Global, path: &str, error: &io::Error) -> InputFailure {
    if error.kind() == ErrorKind::OutOfMemory {
        return InputFailure::from(AllocError);
    }
    let detail = format!(in alloc; "{path} can't be read: {error}");
    InputFailure::new(InputFault::Unreadable, detail)
}

/// All bytes of a file.
pub fn read_file<R: Files + AllocGlobal>(rt: &R, path: &str) -> Result<Vec<u8>, InputFailure> {
    match fs::read(rt, path) {
        Ok(text) => Ok(text),
        Err(error) => Err(unreadable(rt.alloc(), path, &error)),
    }
}

// What is wrong with the text of the file, and where.
fn report_in(
    alloc: Global,
    path: &str,
    text: &[u8],
    fault: ConfigFault,
) -> Result<String, AllocError> {
    let wrong = report(alloc, text, fault)?;
    format!(in alloc; "{path}: {wrong}")
}
