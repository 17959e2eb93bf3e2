//! The rows of a file in any spelling of CSV, and the lines on which they begin.
use csv::{ByteRecord, Position, ReaderBuilder};
use std::alloc::{AllocError, Global};

// U+FEFF in UTF-8.
const BYTE_ORDER_MARK: [u8; 3] = [0xEF, 0xBB, 0xBF];

/// A row of a file.
#[derive(Clone, Copy)]
pub struct LinedRow {
    /// The line on which it begins, from 1.
    pub line: u64,
    /// How many fields it has.
    pub width: usize,
    // The place of the first of them among those of the file.
    first: usize,
}

/// The rows of a file, of any numbers of fields.
#[derive(Drop)]
pub struct LinedRows {
    pub rows: Vec<LinedRow>,
    fields: ByteRecord,
}

// The line of a row that follows what ends at a position: line feeds before its first byte count.
fn first_line(text: &[u8], end: Position) -> u64 {
    let mut rest = text.get(end.byte as usize..).unwrap_or_default();
    if end.byte == 0 {
        rest = rest.strip_prefix(&BYTE_ORDER_MARK).unwrap_or(rest);
    }
    let line_ends = rest
        .iter()
        .take_while(|byte| **byte == b'\r' || **byte == b'\n');
    let line_feeds = line_ends.filter(|byte| **byte == b'\n').count();
    end.line.saturating_add(line_feeds as u64)
}

impl LinedRows {
    /// Reads the rows of a text, its header among them. Lines without a byte are none, as in a deposit.
    pub fn read(alloc: Global, text: &[u8]) -> Result<LinedRows, AllocError> {
        let mut lined = LinedRows {
            rows: Vec::new(alloc),
            fields: ByteRecord::new(alloc),
        };
        let mut reader = ReaderBuilder::new()
            .has_headers(false)
            .flexible(true)
            .from_reader(alloc, text);
        for row in reader.byte_records() {
            // Over bytes in memory it fails for memory alone.
            let Ok(row) = row else {
                return Err(AllocError);
            };
            lined.push(text, &row)?;
        }
        Ok(lined)
    }

    fn push(&mut self, text: &[u8], row: &ByteRecord) -> Result<(), AllocError> {
        let end = row.position().unwrap_or(Position::new());
        self.rows.push(LinedRow {
            line: first_line(text, end),
            width: row.len(),
            first: self.fields.len(),
        })?;
        for field in row.iter() {
            self.fields.push_field(field)?;
        }
        Ok(())
    }

    /// The field of a row in a column, from 0; an empty one where it has none.
    pub fn field(&self, row: &LinedRow, column: usize) -> &[u8] {
        let place = row.first.saturating_add(column);
        self.fields.get(place).unwrap_or_default()
    }
}
