//! What a registry deposits, as it has it.
use deposit_name::{DepositId, DepositName, TableName};

/// What a deposit says of itself (the attributes of RFC 8909, section 5.1).
#[derive(Clone, Copy, Debug, PartialEq, Eq)]
pub struct Attributes {
    /// The name of its first part: the registry, the day, the kind and the resend number.
    pub name: DepositName,
    pub id: DepositId,
    /// The id of the deposit that it follows: of the latest that passed where it is differential, and of none where it is
    /// full.
    pub prev_id: Option<DepositId>,
}

/// The file of a table, or of its deleted keys.
#[derive(Clone, Copy, Debug)]
pub struct TableFile<'t> {
    pub name: TableName,
    pub text: &'t [u8],
}

/// The files of a registry, in any spelling of CSV.
#[derive(Clone, Copy, Debug)]
pub struct Source<'t> {
    /// The tables that the deposit is to contain: all eight in a full one, in any other some of them; in the order of a
    /// deposit.
    pub contents: &'t [TableFile<'t>],
    /// The keys that it is to delete, one a row, of domains, hosts, contacts or registrars; in the same order.
    pub deletes: &'t [TableFile<'t>],
    /// Whether the first row of each file is the names of its columns.
    pub has_headers: bool,
}
