//! Texts of tables and of deleted keys.
use deposit_name::TableName;
use dnrd_csv::{TableError, read_keys, read_table, write_table};
use std::alloc::Global;

/// Reads a table, and gives the number of its rows, if they are written as the same text again.
pub fn count_rows(
    alloc: Global,
    name: TableName,
    text: &[u8],
) -> Result<Option<usize>, TableError> {
    let table = read_table(alloc, name, text)?;
    let back = write_table(alloc, &table)?;
    if back.as_slice() != text {
        return Ok(None);
    }
    Ok(Some(table.rows.len()))
}

/// The number of deleted hosts.
pub fn count_keys(alloc: Global, text: &[u8]) -> Result<usize, TableError> {
    Ok(read_keys(alloc, TableName::Host, text)?.len())
}

/// Texts of tables, in their one spelling and in others.
pub const TABLES: [(TableName, &[u8]); 28] = [
    (TableName::Registrar, b""),
    (TableName::Registrar, b"R1,\"Example, Inc.\",292,ok\n"),
    (
        TableName::Registrar,
        b"R1,\"Say \"\"hi\"\"\",,ok\nR2,\"two\r\nlines\",,ok\n",
    ),
    (TableName::Registrar, b"R3,C,3,ok\nR1,A,1,ok\nR2,B,2,ok\n"),
    (
        TableName::Contact,
        b"\"c,1\",C1-EX,R1,2020-01-01T00:00:00Z\n",
    ),
    (
        TableName::Domain,
        b"b.example,D2-EX,,R1,2020-02-29T23:59:59Z,9998-12-31T00:00:00Z\na.example,D1-EX,C1,R1,1970-01-01T00:00:00Z,2027-01-01T00:00:00Z\n",
    ),
    (
        TableName::Host,
        b"ns2.a.example,H2-EX,R1,2020-01-01T00:00:00Z\nns1.a.example,H1-EX,R1,2020-01-01T00:00:00Z\n",
    ),
    (
        TableName::HostAddresses,
        b"ns1.a.example,192.0.2.1,v4\nns1.a.example,2001:DB8::1,v6\n",
    ),
    (
        TableName::DomainContacts,
        b"a.example,admin,C1\na.example,tech,C1\na.example,admin,C0\n",
    ),
    (
        TableName::DomainNameServers,
        b"b.example,ns1.b.example\na.example,ns1.a.example\n",
    ),
    (TableName::DomainStatuses, b"b.example,ok\na.example,ok\n"),
    (TableName::Registrar, b"R1,\"Example\",292,ok\n"),
    (TableName::Registrar, b"R1,Example,292,ok"),
    (TableName::Registrar, b"\n"),
    (TableName::Registrar, b"R1,Example,292,ok\n\n"),
    (TableName::Registrar, b"\"\"\n"),
    (TableName::Registrar, b"R1,\"Example\n"),
    (TableName::Registrar, b"R1,Example,0292\nR2,Example,292,ok"),
    (TableName::Registrar, b"\xEF\xBB\xBFR1,Example,292,ok\n"),
    (
        TableName::Registrar,
        b"R1,Example,0292,ok\nR2,Example,292\n",
    ),
    (TableName::Registrar, b"R1,Example,0292,ok\n"),
    (TableName::Registrar, b"R1,Example,,ok\nR1,Other,,o1\n"),
    (TableName::Registrar, b"R1,Example,,ok\nR1,Other,,ok\n"),
    (TableName::Registrar, b"R2,B,,ok\nR1,A,,ok\nR2,C,,ok\n"),
    (TableName::Registrar, b"R1,\xFF,,ok\n"),
    (TableName::Registrar, b"R1,\xFF\n,,ok\n"),
    (TableName::DomainStatuses, b"a.example,ok\na.example,ok\n"),
    (
        TableName::DomainContacts,
        b"b.example,tech,C1\na.example,tech,C1\nb.example,tech,C1\n",
    ),
];

/// Texts of files of deleted hosts.
pub const DELETES: [&[u8]; 7] = [
    b"ns1.a.example\n",
    b"ns2.a.example\nns1.a.example\n",
    b"ns1.a.example\xFF\n",
    b"\"ns1.a.example\"\n",
    b"ns1.a.example,H1\n",
    b"NS1.a.example\n",
    b"b.example\na.example\nb.example\n",
];
