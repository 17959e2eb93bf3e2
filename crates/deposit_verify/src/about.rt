//! What is known of a deposit.
use crate::base::Base;
use deposit_name::{DepositId, DepositName};

/// What is known of a deposit before it is read.
#[derive(Debug, Drop)]
pub struct About {
    /// The name of its first part.
    pub name: DepositName,
    /// The id that its statement tells.
    pub id: DepositId,
    /// The id of the latest deposit of the registry that passed.
    pub latest: Option<DepositId>,
    /// The id of the latest full deposit of the registry that passed.
    pub full: Option<DepositId>,
    /// The ids of the deposits of the registry that passed.
    pub passed: Vec<DepositId>,
    /// The keys after the deposits of its chain that are before it, where they are known.
    pub base: Option<Base>,
}
