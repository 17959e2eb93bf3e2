//! Calls of the program over a machine in memory.
use crate::{MemHost, NamedFile, Output, run};
use schedule::Sec;
use std::test::Fail;

/// 2026-08-02T10:00:00Z.
const NOW: i64 = 1_785_664_800;

/// The file beside the folder: a part.
const PART: &str = "example_2026-08-02_full_S1_R0.ryde";

/// A call of the program, and what it comes to.
#[derive(Clone, Copy)]
struct Call {
    words: &'static str,
    status: u8,
    printed: &'static str,
    told: &'static str,
}

const INIT: Call = Call {
    words: "escrow init vault --blocks 8 --number 0000000000000001",
    status: 0,
    printed: "ready 8 0000000000000001\n",
    told: "",
};

/// Calls the program over one machine, whose folder `vault` has no files at first, and compares what each call comes to.
fn calls(rt: &HostRuntime, given: &[Call]) -> Result<(), Fail> {
    let alloc = rt.alloc();
    let other = NamedFile {
        path: PART,
        bytes: b"hello",
    };
    let now = Sec::new(NOW).ok_or("a moment")?;
    let mut host = MemHost::new(alloc, Vec::new(alloc), "vault", other, &[], now, 64, 16)?;
    for call in given {
        let mut words = Vec::new(alloc);
        for word in call.words.split(' ') {
            words.push(String::from_str(alloc, word)?)?;
        }
        host.start(words);
        let lines: &[u8] = b"";
        let (mut out, mut err) = (Vec::new(alloc), Vec::new(alloc));
        let came = run(&mut host, lines, &mut Output::new(&mut out), &mut err);
        if came != call.status {
            return Err(Fail::from("another status"));
        }
        if out.as_slice() != call.printed.as_bytes() {
            return Err(Fail::from("another output"));
        }
        if err.as_slice() != call.told.as_bytes() {
            return Err(Fail::from("other errors"));
        }
    }
    Ok(())
}

#[test]
fn a_part_that_was_put_is_found_by_the_next_calls(rt: HostRuntime) -> Result<(), Fail> {
    let register = Call {
        words: "escrow register vault example --first 2026-08-02",
        status: 0,
        printed: "registered example 2026-08-02\n",
        told: "",
    };
    let put = Call {
        words: "escrow put vault example_2026-08-02_full_S1_R0.ryde",
        status: 0,
        printed: "received example_2026-08-02_full_S1_R0.ryde 5 2026-08-02T10:00:00Z\n",
        told: "",
    };
    let state = Call {
        words: "escrow state vault",
        status: 0,
        printed: "registry example 2026-08-02\npart example_2026-08-02_full_S1_R0.ryde 5 held 2026-08-02T10:00:00Z\nfree 6 of 7\n",
        told: "",
    };
    calls(&rt, &[INIT, register, put, put, state])
}

#[test]
fn what_is_missing_is_named(rt: HostRuntime) -> Result<(), Fail> {
    let volume = Call {
        words: "escrow state vault",
        status: 3,
        printed: "",
        told: "file failed: vault/vault.vol: file missing\n",
    };
    let folder = Call {
        words: "escrow state house",
        status: 3,
        printed: "",
        told: "file failed: house: folder missing\n",
    };
    calls(&rt, &[volume, folder, INIT])
}
