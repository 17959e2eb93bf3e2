//! Tables that are read.
use deposit_name::TableName;
use dnrd_csv::{TableError, read_table};
use std::alloc::Global;
use std::{fs, io};

fn count_rows(
    alloc: Global,
    name: TableName,
    text: &[u8],
    times: u32,
) -> Result<usize, TableError> {
    let mut rows = 0;
    for _ in 0..times {
        rows = read_table(alloc, name, text)?.rows.len();
    }
    Ok(rows)
}

/// Reads the file of a table so often, and prints how many rows it has, or why it is refused.
pub fn print_table(rt: &HostRuntime, table: &str, path: &str, times: u32) -> io::Result<()> {
    let Some(name) = TableName::parse(table) else {
        return println!(rt; "no such table");
    };
    let text = fs::read(rt, path)?;
    match count_rows(rt.alloc(), name, text.as_slice(), times) {
        Ok(rows) => println!(rt; "{rows} rows"),
        Err(fault) => println!(rt; "{fault}"),
    }
}
