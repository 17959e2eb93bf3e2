//! Whose rows a table has.
ghost use Rattle.std.specs.Prelude.{◌≡◌, ◌<◌};
ghost use Rattle.deposit_verify.specs.Places.{table_place};
ghost use Rattle.deposit_tables.specs.Owners.{owner_table};

use deposit_name::TableName;

/// The table of the objects whose rows a table has.
pub fn owner_table(name: TableName) -> TableName
    ensures { result ≡ owner_table name }
{
    match name {
        TableName::Domain
        | TableName::DomainContacts
        | TableName::DomainStatuses
        | TableName::DomainNameServers => TableName::Domain,
        TableName::Host | TableName::HostAddresses => TableName::Host,
        TableName::Contact => TableName::Contact,
        TableName::Registrar => TableName::Registrar,
    }
}

// The table at a place among all, from 0.
pub(crate) fn table_name_at(place: usize) -> TableName
    requires { place < 8 }
    ensures { table_place result ≡ place }
{
    match place {
        0 => TableName::Domain,
        1 => TableName::DomainContacts,
        2 => TableName::DomainStatuses,
        3 => TableName::DomainNameServers,
        4 => TableName::Host,
        5 => TableName::HostAddresses,
        6 => TableName::Contact,
        _ => TableName::Registrar,
    }
}
