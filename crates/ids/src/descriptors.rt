//! The standard descriptors, taken before any file is opened.

use std::fs::{File, OpenOptions};
use std::io;
use std::os::fd::{AsRawFd, IntoRawFd};

const NULL_DEVICE: &str = "/dev/null";

// Keeps a file open to the end of the process where its descriptor is at most this one; else it is closed.
fn keep(file: File, most: i32) {
    if file.as_raw_fd() <= most {
        let _ = file.into_raw_fd();
    }
}

/// Takes those of the descriptors 0, 1 and 2 that are closed, so that no file of a disk becomes one of them and is read as the
/// script or has the replies written over it. The system gives the lowest number that is free. Each is taken the wrong way round,
/// 0 to write and 1 and 2 to read, so that who uses it gets a fault, as of a closed one. An error where the null device can not be
/// opened. At most three files are opened. Method: `stdopen` of the GNU portability library.
pub fn take_standard_descriptors(rt: &HostRuntime) -> io::Result<()> {
    keep(OpenOptions::new().write(true).open(rt, NULL_DEVICE)?, 0);
    keep(File::open(rt, NULL_DEVICE)?, 2);
    keep(File::open(rt, NULL_DEVICE)?, 2);
    Ok(())
}
