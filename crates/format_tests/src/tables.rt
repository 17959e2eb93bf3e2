//! Tables from outside, with their answers.
use super::memory::most_held;
use csv::ByteRecord;
use deposit_name::TableName;
use dnrd_csv::{Keys, Rows, Table, TableError, read_keys, read_table, write_table};
use std::alloc::{AllocError, Global};
use std::rt::Files;
use std::str;
use std::test::Fail;

/// Texts that are read, with the number of their rows.
static READ: [(TableName, &[u8], usize); 7] = [
    (TableName::Registrar, b"", 0),
    (TableName::Registrar, b"R1,\"Example, Inc.\",292,ok\n", 1),
    (
        TableName::Registrar,
        b"R1,\"Say \"\"hi\"\"\",,ok\nR2,\"two\r\nlines\",,ok\n",
        2,
    ),
    (
        TableName::Contact,
        b"\"c,1\",C1-EX,R1,2020-01-01T00:00:00Z\n",
        1,
    ),
    (
        TableName::Domain,
        b"b.example,D2-EX,,R1,2020-02-29T23:59:59Z,9998-12-31T00:00:00Z\na.example,D1-EX,C1,R1,1970-01-01T00:00:00Z,2027-01-01T00:00:00Z\n",
        2,
    ),
    (
        TableName::HostAddresses,
        b"ns1.a.example,192.0.2.1,v4\nns1.a.example,2001:DB8::1,v6\n",
        2,
    ),
    (
        TableName::DomainContacts,
        b"a.example,admin,C1\na.example,tech,C1\na.example,admin,C0\n",
        3,
    ),
];

/// Texts of registrars that are refused, and what is told of the fault.
static REFUSED: [(&[u8], &str); 28] = [
    (b"R1,\xFF,,ok\n\n", "K1 behind 3 bytes"),
    (b"R1,\xC3\xA9\xC3", "K1 behind 5 bytes"),
    (b"\xFF\xFF", "K1 behind 0 bytes"),
    (b"R1,\"Example\",292,ok\n", "K2 behind 0 rows"),
    (b"R1,Example,292,ok", "K2 behind 0 rows"),
    (b"\n", "K2 behind 0 rows"),
    (b"R1,Example,292,ok\n\n", "K2 behind 1 rows"),
    (b"R1,A,,ok\nR2,B,,ok\nR3,\"C\",,ok\n", "K2 behind 2 rows"),
    (b"R1,A,,ok\n\nR2,B,,ok\n\n", "K2 behind 1 rows"),
    (b"\"\"\n", "K2 behind 0 rows"),
    (b"R1,Example,292,ok\r\n", "K2 behind 0 rows"),
    (b"R1,\"Example\n", "K2 behind 0 rows"),
    (b"R1,Exam\"ple,292,ok\n", "K2 behind 0 rows"),
    (b"\xEF\xBB\xBFR1,Example,292,ok\n", "K2 behind 0 rows"),
    (b"R1,Example,0292\nR2,Example,292,ok", "K2 behind 1 rows"),
    (
        b"R1,Example,0292,ok\nR2,Example,292\n",
        "K3 row 1 of 3 fields",
    ),
    (
        b"R1,Example,,ok\nR1,Other,,ok,more\n",
        "K3 row 1 of 5 fields",
    ),
    (b"R1\nR2,B,,ok\nR3,C\n", "K3 row 0 of 1 fields"),
    (b"R1,Example,0292,ok\n", "K4 row 0 column 2: 0292"),
    (b"R1,Example,,ok\nR1,Other,,o1\n", "K4 row 1 column 3: o1"),
    (b"R1,A,,o1\nR2,B,,o2\n", "K4 row 0 column 3: o1"),
    (b"R1,,0292,ok\n", "K4 row 0 column 1: "),
    (b"R1,A,,ok\nR2,B,,ok\nR 3,C,,o3\n", "K4 row 2 column 0: R 3"),
    (b"R1,A,,ok\nR1,B,,ok\n", "K5 row 1 as row 0"),
    (b"R1,A,,ok\nR1,B,,ok\nR1,C,,ok\n", "K5 row 1 as row 0"),
    (
        b"R2,A,,ok\nR1,B,,ok\nR3,C,,ok\nR1,D,,ok\n",
        "K5 row 3 as row 1",
    ),
    (
        b"R1,A,,ok\nR2,B,,ok\nR2,C,,ok\nR1,D,,ok\n",
        "K5 row 2 as row 1",
    ),
    (
        b"R2,A,,ok\nR1,B,,ok\nR2,C,,ok\nR1,D,,ok\n",
        "K5 row 2 as row 0",
    ),
];

/// The fields of two registrars, one row after the other.
static FIELDS: [&[u8]; 8] = [
    b"R1",
    b"Example, Inc.",
    b"292",
    b"ok",
    b"R2",
    b"",
    b"",
    b"ok",
];

/// Fields that are no rows of a width: it is 0, the last row is short, or a row is one empty field.
static NO_ROWS: [(&[&[u8]], usize); 3] = [
    (&[], 0),
    (&[b"R1", b"ok", b"R2"], 2),
    (&[b"R1", b""], 1),
];

/// Whether a text is read as so many rows, and written as it was.
fn is_read(alloc: Global, name: TableName, text: &[u8], rows: usize) -> bool {
    match read_table(alloc, name, text) {
        Ok(table) => {
            table.name == name
                && table.rows.len() == rows
                && table.rows.is_empty() == (rows == 0)
                && is_written(alloc, &table, text)
        }
        Err(_) => false,
    }
}

fn is_written(alloc: Global, table: &Table, text: &[u8]) -> bool {
    match write_table(alloc, table) {
        Ok(written) => written.as_slice() == text,
        Err(_) => false,
    }
}

#[test]
fn writes_accepted_texts_back(rt: HostRuntime) {
    for &(name, text, rows) in &READ {
        assert!(rt; is_read(rt.alloc(), name, text, rows), "{rows} rows");
    }
}

/// Whether a text is read as one contact with these first and last fields.
fn is_one_contact(alloc: Global, text: &[u8], first: &[u8], last: &[u8]) -> bool {
    match read_table(alloc, TableName::Contact, text) {
        Ok(table) => {
            let rows = &table.rows;
            rows.len() == 1 && rows.field(0, 0) == first && rows.field(0, 3) == last
        }
        Err(_) => false,
    }
}

#[test]
fn gives_the_fields(rt: HostRuntime) {
    let text = b"\"c,1\",C1-EX,R1,2020-01-01T00:00:00Z\n";
    assert!(rt; is_one_contact(rt.alloc(), text, b"c,1", b"2020-01-01T00:00:00Z"));
}

/// A fault with its place.
fn told(alloc: Global, fault: &TableError) -> Result<String, AllocError> {
    match fault {
        TableError::NotUtf8 { offset } => format!(in alloc; "{fault} behind {offset} bytes"),
        TableError::NotRows { row } => format!(in alloc; "{fault} behind {row} rows"),
        TableError::ColumnCount { row, fields } => {
            format!(in alloc; "{fault} row {row} of {fields} fields")
        }
        TableError::FieldForm { row, column, field } => {
            let field = str::from_utf8(field.as_slice()).unwrap_or("not UTF-8");
            format!(in alloc; "{fault} row {row} column {column}: {field}")
        }
        TableError::DuplicateKey { row, earlier } => {
            format!(in alloc; "{fault} row {row} as row {earlier}")
        }
        TableError::OutOfMemory => format!(in alloc; "{fault}"),
    }
}

/// Whether a text is refused with this fault and place.
fn is_refused(
    alloc: Global,
    name: TableName,
    text: &[u8],
    wanted: &str,
) -> Result<bool, AllocError> {
    match read_table(alloc, name, text) {
        Ok(_) => Ok(false),
        Err(fault) => Ok(told(alloc, &fault)?.as_str() == wanted),
    }
}

#[test]
fn refuses_texts(rt: HostRuntime) -> Result<(), Fail> {
    let alloc = rt.alloc();
    for &(text, wanted) in &REFUSED {
        assert!(rt;
            is_refused(alloc, TableName::Registrar, text, wanted)?,
            "wants {wanted}"
        );
    }
    let twice = b"a.example,ok\na.example,hold\na.example,ok\n";
    assert!(rt; is_refused(alloc, TableName::DomainStatuses, twice, "K5 row 2 as row 0")?);
    Ok(())
}

fn only_key(keys: &Keys) -> Option<&[u8]> {
    if keys.len() == 1 && !keys.is_empty() {
        Some(keys.key(0))
    } else {
        None
    }
}

fn is_only_key(alloc: Global, text: &[u8], key: &[u8]) -> bool {
    match read_keys(alloc, TableName::Host, text) {
        Ok(keys) => only_key(&keys) == Some(key),
        Err(_) => false,
    }
}

#[test]
fn reads_keys(rt: HostRuntime) {
    let alloc = rt.alloc();
    assert!(rt; is_only_key(alloc, b"ns1.a.example\n", b"ns1.a.example"));
    let twice = read_keys(alloc, TableName::Host, b"b.example\na.example\nb.example\n");
    let fault = TableError::DuplicateKey { row: 2, earlier: 0 };
    assert!(rt; twice.err() == Some(fault));
}

/// Whether these are the fields of registrars with this text, and come back from their rows.
fn is_text_of_fields(alloc: Global, fields: &[&[u8]], text: &[u8]) -> Result<bool, AllocError> {
    let given = ByteRecord::from_fields(alloc, fields)?;
    let Some(rows) = Rows::from_fields(given.clone()?, 4) else {
        return Ok(false);
    };
    let table = Table {
        name: TableName::Registrar,
        rows,
    };
    let is_right = is_written(alloc, &table, text);
    let Table { rows, .. } = table;
    Ok(is_right && rows.into_fields() == given)
}

fn are_no_rows(alloc: Global, fields: &[&[u8]], width: usize) -> Result<bool, AllocError> {
    let given = ByteRecord::from_fields(alloc, fields)?;
    Ok(Rows::from_fields(given, width).is_none())
}

/// Whether these are keys as they stand, and come back from them.
fn are_keys(alloc: Global, fields: &[&[u8]]) -> Result<bool, AllocError> {
    let given = ByteRecord::from_fields(alloc, fields)?;
    let keys = Keys::from_fields(given.clone()?);
    Ok(keys.len() == fields.len() && keys.into_fields() == given)
}

#[test]
fn makes_rows_of_fields(rt: HostRuntime) -> Result<(), Fail> {
    let alloc = rt.alloc();
    let text = b"R1,\"Example, Inc.\",292,ok\nR2,,,ok\n";
    assert!(rt; is_text_of_fields(alloc, &FIELDS, text)?);
    for &(fields, width) in &NO_ROWS {
        assert!(rt; are_no_rows(alloc, fields, width)?, "of {width} fields");
    }
    assert!(rt; are_keys(alloc, &FIELDS)?);
    Ok(())
}

/// The most memory held once a text of one byte again and again was refused, in kB.
fn held_for(rt: &(impl Files + AllocGlobal), length: usize, byte: u8) -> Result<u64, Fail> {
    let alloc = rt.alloc();
    let mut text = Vec::new(alloc);
    text.resize(length, byte)?;
    if is_refused(alloc, TableName::Registrar, &text, "K2 behind 0 rows")? {
        most_held(rt)
    } else {
        Err(Fail::from("not refused"))
    }
}

#[test]
fn hostile_tables_take_little_memory(rt: HostRuntime) -> Result<(), Fail> {
    let before = most_held(&rt)?;
    for byte in [b'"', b'\n', b','] {
        let taken = held_for(&rt, 8 * 1024 * 1024, byte)?.saturating_sub(before);
        // The text itself, and 32 times its bytes.
        assert!(rt; taken <= 33 * 8192, "{byte}: {taken} kB");
    }
    Ok(())
}
