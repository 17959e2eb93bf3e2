//! The memory that the process holds.
use std::fs;
use std::rt::Files;
use std::test::Fail;

fn kilobytes_of(status: &str) -> Option<u64> {
    let line = status.lines().find(|line| line.starts_with("VmHWM:"))?;
    line.split_whitespace().nth(1)?.parse::<u64>().ok()
}

/// The most memory that the process has held so far, in kB.
pub fn most_held(rt: &(impl Files + AllocGlobal)) -> Result<u64, Fail> {
    let status = fs::read_to_string(rt, "/proc/self/status")?;
    Ok(kilobytes_of(&status).ok_or("no VmHWM")?)
}
