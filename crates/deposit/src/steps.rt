//! What the program is at, for those who look on.
use crate::files::file_name;
use std::fs;

// Goes back to the beginning of a terminal's line, and clears it.
const CLEAR: &str = "\r\x1b[K";

/// Shows what the program is at, in place of what it was at before, where standard error is a terminal.
pub fn show_step(rt: &HostRuntime, step: &str) {
    if is_terminal(rt) {
        let _ = eprint!(rt; "{CLEAR}{step}");
    }
}

/// Shows which of several files the program is at, by its place from 0.
pub fn show_file(rt: &HostRuntime, verb: &str, path: &str, place: usize, count: usize) {
    if is_terminal(rt) {
        let number = place.saturating_add(1);
        let _ = eprint!(rt; "{CLEAR}{verb} {} ({number} of {count})", file_name(path));
    }
}

/// Clears what is shown there.
pub fn clear_step(rt: &HostRuntime) {
    show_step(rt, "");
}

/// Whether standard error is a terminal, by the name of what it is.
fn is_terminal(rt: &HostRuntime) -> bool {
    match fs::read_link(rt, "/proc/self/fd/2") {
        Ok(path) => path.as_str().starts_with("/dev/pts/") || path.as_str().starts_with("/dev/tty"),
        Err(_) => false,
    }
}
