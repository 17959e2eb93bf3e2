//! The places of tables in a deposit.
ghost use Rattle.std.specs.Prelude.{◌≡◌, ◌<◌, length};
ghost use Rattle.deposit_verify.specs.Places.{table_place};
ghost use Rattle.deposit_verify.specs.Tables.{table_of};

use deposit_name::TableName;
use dnrd_csv::Rows;

/// The place of a table among all, from 0.
pub fn table_place(name: TableName) -> usize
    ensures place { result ≡ table_place name }
    ensures within { result < 8 }
{
    match name {
        TableName::Domain => 0,
        TableName::DomainContacts => 1,
        TableName::DomainStatuses => 2,
        TableName::DomainNameServers => 3,
        TableName::Host => 4,
        TableName::HostAddresses => 5,
        TableName::Contact => 6,
        TableName::Registrar => 7,
    }
}

/// Of all tables, the one under a name.
pub fn table(tables: &[Rows], name: TableName) -> &Rows
    requires { length tables.now ≡ 8 }
    ensures { result.now ≡ table_of tables.now name }
{
    &tables[table_place(name)]
}
