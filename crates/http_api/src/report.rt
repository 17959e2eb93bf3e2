//! The report of a registry, with its length.
ghost use Rattle.std.specs.Prelude.{◌≡◌, ◌≤◌, ◌^◌, IfSome, IfNone, length};
ghost use Rattle.desk.specs.Lines.{report_text};

use desk::{Notice, write_line};

/// The notices of a registry, and how many bytes their lines have.
#[derive(Clone, Copy, Debug)]
pub(crate) struct Report<'c> {
    pub(crate) notices: &'c [Notice],
    pub(crate) len: u64,
    ghost counted: { len ≡ length (report_text notices.now) },
}

impl<'c> Report<'c> {
    ghost use Rattle.std.specs.Prelude.{◌≡◌, ◌≤◌, ◌^◌, IfSome, IfNone, length};

    /// The report of notices; `None` where 64 bits do not tell its length.
    pub(crate) fn of(notices: &'c [Notice]) -> Option<Report<'c>>
        ensures some { IfSome result (λ report. report.notices.now ≡ notices.entry.now) }
        ensures none { IfNone result (2 ^ 64 ≤ length (report_text notices.entry.now)) }
    {
        let len = report_len(notices)?;
        Some(Report { notices, len })
    }
}

/// How many bytes the lines of notices have; `None` where 64 bits do not tell it.
fn report_len(notices: &[Notice]) -> Option<u64>
    ensures some { IfSome result (λ n. n ≡ length (report_text notices.now)) }
    ensures none { IfNone result (2 ^ 64 ≤ length (report_text notices.now)) }
{
    let mut total: u64 = 0;
    for notice in notices {
        total = total.checked_add(write_line(notice).len() as u64)?;
    }
    Some(total)
}
