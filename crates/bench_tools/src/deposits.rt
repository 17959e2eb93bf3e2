//! Deposits that are verified.
use deposit_name::{DepositId, DepositName};
use deposit_verify::{About, Reason, explain};
use std::alloc::{AllocError, Global};
use std::{fs, io};

fn explain_often(
    alloc: Global,
    joined: &[u8],
    about: &About,
    times: u32,
) -> Result<Option<Reason>, AllocError> {
    let mut found = explain(alloc, joined, about)?;
    for _ in 1..times {
        found = explain(alloc, joined, about)?;
    }
    Ok(found)
}

/// What is known of a deposit: its name, its id, and the id of the deposit before it, or another text.
fn about(alloc: Global, name: &str, id: &str, latest: &str) -> Option<About> {
    Some(About {
        name: DepositName::parse(name.as_bytes()).ok()?,
        id: DepositId::parse(id.as_bytes())?,
        latest: DepositId::parse(latest.as_bytes()),
        full: None,
        passed: Vec::new(alloc),
        base: None,
    })
}

/// Verifies the deposit in a file so often, and prints the verdict, with the reason where it fails.
pub fn print_verdict(
    rt: &HostRuntime,
    [name, id, latest]: [&str; 3],
    path: &str,
    times: u32,
) -> io::Result<()> {
    let Some(about) = about(rt.alloc(), name, id, latest) else {
        return println!(rt; "no such name or id");
    };
    let joined = fs::read(rt, path)?;
    match explain_often(rt.alloc(), joined.as_slice(), &about, times) {
        Ok(None) => println!(rt; "PASS"),
        Ok(Some(reason)) => println!(rt; "FAILURE-{} {reason}", reason.check()),
        Err(AllocError) => println!(rt; "no memory"),
    }
}
