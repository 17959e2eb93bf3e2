//! The tables of a deposit.
ghost use Rattle.std.specs.Prelude.{◌≡◌, Some, IfSome};

use std::fmt;

/// A table of a deposit: a file of the CSV model of RFC 9022. Tables are ordered as a deposit lists them.
#[derive(Clone, Copy, Debug, PartialEq, Eq, PartialOrd, Ord, Hash)]
pub enum TableName {
    Domain,
    DomainContacts,
    DomainStatuses,
    DomainNameServers,
    Host,
    HostAddresses,
    Contact,
    Registrar,
}

impl TableName {
    ghost use Rattle.deposit_name.specs.declared.table.TableName.{TableName};
    ghost use Rattle.deposit_name.specs.Tables.{table_name_text, table_of_name, has_deletes};

    /// The table with that name.
    pub fn parse(t: &str) -> Option<TableName>
        ensures text { IfSome result (λ n. t.now ≡ table_name_text n) }
        ensures only { (n : TableName) → t.now ≡ table_name_text n → result ≡ Some n }
        // The same as a function of the text.
        ensures value { result ≡ table_of_name t.now }
    {
        TableName::named(t)
    }

    // That this is the table with that name, and the only one, follows.
    #[tactic(auto, unfolding(crate::specs::Tables::table_of_name))]
    fn named(t: &str) -> Option<TableName>
        ensures { result ≡ table_of_name t.now }
    {
        match t {
            "domain" => Some(TableName::Domain),
            "domainContacts" => Some(TableName::DomainContacts),
            "domainStatuses" => Some(TableName::DomainStatuses),
            "domainNameServers" => Some(TableName::DomainNameServers),
            "host" => Some(TableName::Host),
            "hostAddresses" => Some(TableName::HostAddresses),
            "contact" => Some(TableName::Contact),
            "registrar" => Some(TableName::Registrar),
            _ => None,
        }
    }

    /// The table's name.
    pub fn as_str(self) -> &'static str
        ensures { result.now ≡ table_name_text self }
    {
        match self {
            TableName::Domain => "domain",
            TableName::DomainContacts => "domainContacts",
            TableName::DomainStatuses => "domainStatuses",
            TableName::DomainNameServers => "domainNameServers",
            TableName::Host => "host",
            TableName::HostAddresses => "hostAddresses",
            TableName::Contact => "contact",
            TableName::Registrar => "registrar",
        }
    }

    /// Whether a deposit of changes may delete objects of the table, by their keys.
    pub fn has_deletes(self) -> bool
        ensures { result ≡ has_deletes self }
    {
        match self {
            TableName::Domain | TableName::Host | TableName::Contact | TableName::Registrar => true,
            TableName::DomainContacts
            | TableName::DomainStatuses
            | TableName::DomainNameServers
            | TableName::HostAddresses => false,
        }
    }
}

impl fmt::Display for TableName {
    ghost use Rattle.deposit_name.specs.Tables.{table_name_text};

    ghost output = { λ t. Some (table_name_text t) };

    fn fmt<W: fmt::Write>(&self, f: &mut fmt::Formatter<W>) -> fmt::Result {
        f.pad(self.as_str())
    }
}
