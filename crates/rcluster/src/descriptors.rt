//! Standard input, output and error that are closed when the program starts.

use std::fs::File;
use std::io;
use std::os::fd::{AsRawFd, IntoRawFd, RawFd};

// The descriptor of standard error, the last of the three.
const LAST: RawFd = 2;

/// Opens `/dev/null` for each of the three that is closed, and never closes it, so that no file and no socket of the program gets its
/// descriptor: what is written to standard output would go there. From such a standard input nothing is read, and nothing can be
/// written to such an output.
pub fn fill_standard_descriptors(rt: &HostRuntime) -> io::Result<()> {
    // A file gets the lowest descriptor that is free.
    for _ in 0..=LAST {
        let file = File::open(rt, "/dev/null")?;
        if file.as_raw_fd() > LAST {
            return Ok(());
        }
        let _kept = file.into_raw_fd();
    }
    Ok(())
}
