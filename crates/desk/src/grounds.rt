//! The grounds on which deposits are handed over.
ghost use Rattle.std.specs.Prelude.{◌≡◌, Some, IfSome};
ghost use Rattle.desk.specs.Grounds.{ground_text};

use std::fmt;

/// A ground of a release (Specification 2, Part B section 6).
#[derive(Clone, Copy, Debug, PartialEq, Eq, Hash)]
pub enum Ground {
    /// The registry operator asks for it.
    Operator,
    /// The Registry Agreement has ended.
    Termination,
    /// No notices of receipt came for five days.
    NoNotices,
    /// The Full Deposit of a Sunday failed or is absent.
    SundayFailed,
    /// Five deposits failed or are absent within a month.
    FiveFailed,
    /// The registry operator is insolvent.
    Insolvency,
    /// A critical function of the registry failed.
    Critical,
    /// A court or an authority orders it.
    Order,
    /// An audit of the escrow.
    Audit,
}

impl Ground {
    /// The ground of this text.
    pub fn parse(t: &str) -> Option<Ground>
        ensures text { IfSome result (λ reason. t.now ≡ ground_text reason) }
        ensures only { (reason : Ground) → t.now ≡ ground_text reason → result ≡ Some reason }
    {
        match t {
            "operator" => Some(Ground::Operator),
            "termination" => Some(Ground::Termination),
            "no_notices" => Some(Ground::NoNotices),
            "sunday_failed" => Some(Ground::SundayFailed),
            "five_failed" => Some(Ground::FiveFailed),
            "insolvency" => Some(Ground::Insolvency),
            "critical" => Some(Ground::Critical),
            "order" => Some(Ground::Order),
            "audit" => Some(Ground::Audit),
            _ => None,
        }
    }

    /// Its text.
    pub fn as_str(self) -> &'static str
        ensures { result.now ≡ ground_text self }
    {
        match self {
            Ground::Operator => "operator",
            Ground::Termination => "termination",
            Ground::NoNotices => "no_notices",
            Ground::SundayFailed => "sunday_failed",
            Ground::FiveFailed => "five_failed",
            Ground::Insolvency => "insolvency",
            Ground::Critical => "critical",
            Ground::Order => "order",
            Ground::Audit => "audit",
        }
    }
}

impl fmt::Display for Ground {
    ghost output = { λ reason. Some (ground_text reason) };

    fn fmt<W: fmt::Write>(&self, f: &mut fmt::Formatter<W>) -> fmt::Result {
        f.pad(self.as_str())
    }
}
