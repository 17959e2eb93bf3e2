//! The columns and the key of each table.
ghost use Rattle.std.specs.Prelude.{◌≡◌, length, map};
ghost use Rattle.dnrd_csv.specs.Table.{column_names_of, columns_of, key_columns_of};

use crate::form::Form;
use deposit_name::TableName;

/// The forms of a table's columns.
pub fn columns(table: TableName) -> &'static [Form]
    ensures { result.now ≡ columns_of table }
{
    match table {
        TableName::Domain => &[
            Form::HostName,
            Form::Roid,
            Form::OptionalId,
            Form::Id,
            Form::Moment,
            Form::Moment,
        ],
        TableName::DomainContacts => &[Form::HostName, Form::ContactType, Form::Id],
        TableName::DomainStatuses => &[Form::HostName, Form::Status],
        TableName::DomainNameServers => &[Form::HostName, Form::HostName],
        TableName::Host => &[Form::HostName, Form::Roid, Form::Id, Form::Moment],
        TableName::HostAddresses => &[Form::HostName, Form::Address, Form::AddressVersion],
        TableName::Contact => &[Form::Id, Form::Roid, Form::Id, Form::Moment],
        TableName::Registrar => &[Form::Id, Form::RegistrarName, Form::Gurid, Form::Status],
    }
}

/// The names of a table's columns.
pub fn column_names(table: TableName) -> &'static [&'static str]
    ensures names { map (λ name. name.now) result.now ≡ column_names_of table }
    ensures count { length result.now ≡ length (columns_of table) }
{
    match table {
        TableName::Domain => &[
            "fName",
            "fRoid",
            "fRegistrant",
            "fClID",
            "fCrDate",
            "fExDate",
        ],
        TableName::DomainContacts => &["fName", "fContactType", "fId"],
        TableName::DomainStatuses => &["fName", "fStatus"],
        TableName::DomainNameServers => &["fName", "fHostName"],
        TableName::Host => &["fName", "fRoid", "fClID", "fCrDate"],
        TableName::HostAddresses => &["fName", "fAddr", "fAddrVersion"],
        TableName::Contact => &["fId", "fRoid", "fClID", "fCrDate"],
        TableName::Registrar => &["fId", "fName", "fGurid", "fStatus"],
    }
}

/// How many of the first columns are a table's key: one, or the row.
pub fn key_columns(table: TableName) -> usize
    ensures { result ≡ key_columns_of table }
{
    match table {
        TableName::Domain | TableName::Host | TableName::Contact | TableName::Registrar => 1,
        TableName::DomainStatuses | TableName::DomainNameServers => 2,
        TableName::DomainContacts | TableName::HostAddresses => 3,
    }
}
