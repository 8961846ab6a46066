//! Standard streams that were closed.
use std::fs;
use std::fs::File;
use std::os::fd::{AsRawFd, IntoRawFd};

/// Opens a folder under the number of each standard stream that was closed, for as long as the program runs: a file of the
/// project would be opened there else, and take what is printed.
pub(crate) fn fill(rt: HostRuntime) {
    for _ in 0..3 {
        match File::open(&rt, "/") {
            Ok(file) if file.as_raw_fd() <= 2 => {
                let _ = file.into_raw_fd();
            }
            _ => return,
        }
    }
}

/// Whether standard output or standard error was closed: a folder is open there then, which no program that is started is given.
pub(crate) fn was_closed(rt: HostRuntime) -> bool {
    is_folder(rt, "/proc/self/fd/1") || is_folder(rt, "/proc/self/fd/2")
}

/// Whether a folder is open at a place.
fn is_folder(rt: HostRuntime, place: &str) -> bool {
    match fs::metadata(&rt, place) {
        Ok(found) => found.is_dir(),
        Err(_) => false,
    }
}
