//! All faults of the files that are packed, each with its line.
use crate::errors::ProgramError;
use crate::lined_rows::{LinedRow, LinedRows};
use crate::steps::clear_step;
use crate::words::PackOrder;
use deposit_name::{Kind, TableName};
use deposit_pack::{PackError, Source, TableFile};
use deposit_tables::WholeError;
use deposit_verify::{FileList, FilePlace, NoKey, NoTable};
use dnrd_csv::{Form, TableError, column_names, columns, has_header, key_columns};
use std::alloc::{AllocError, Global};

/// The columns of a file: their names, their forms, and how many of the first are its key.
#[derive(Clone, Copy)]
struct Columns {
    names: &'static [&'static str],
    forms: &'static [Form],
    key: usize,
}

/// A file that is packed, with its rows.
#[derive(Drop)]
struct RowFile {
    file: FilePlace,
    columns: Columns,
    /// Whether its first row is to be its header, and whether it is not.
    wants_header: bool,
    lacks_header: bool,
    lined: LinedRows,
}

/// A fault of a file: the line on which its row begins, from 1, and what is printed of it where it is the only one.
#[derive(Drop)]
struct FileFault {
    line: u64,
    error: WholeError,
}

/// A file, and what its rows are compared with.
#[derive(Drop)]
struct FileCheck<'f, 'k> {
    kind: Kind,
    file: &'f RowFile,
    /// The keys of its rows, each with the place of its row, in ascending order.
    placed: Vec<([&'f [u8]; 3], usize)>,
    /// The keys that are there, each behind its table, in ascending order.
    known: &'k [(TableName, &'f [u8])],
    /// Whether its rows may name no others.
    names_known: bool,
}

fn columns_of(file: FilePlace) -> Columns {
    let (names, forms) = (column_names(file.name), columns(file.name));
    match file.list {
        FileList::Contents => Columns {
            names,
            forms,
            key: key_columns(file.name),
        },
        FileList::Deletes => Columns {
            names: &names[..1],
            forms: &forms[..1],
            key: 1,
        },
    }
}

// The table whose keys the fields of a column name.
fn named_table(table: TableName, column: usize) -> Option<TableName> {
    match (table, column) {
        (TableName::Domain, 3) | (TableName::Host | TableName::Contact, 2) => {
            Some(TableName::Registrar)
        }
        (TableName::Domain | TableName::DomainContacts, 2) => Some(TableName::Contact),
        (TableName::DomainContacts | TableName::DomainStatuses | TableName::DomainNameServers, 0) =>
            Some(TableName::Domain),
        (TableName::DomainNameServers, 1) | (TableName::HostAddresses, 0) => Some(TableName::Host),
        _ => None,
    }
}

impl RowFile {
    fn read(
        alloc: Global,
        file: FilePlace,
        text: &[u8],
        wants_header: bool,
    ) -> Result<RowFile, AllocError> {
        let columns = columns_of(file);
        let lacks_header = wants_header && !has_header(alloc, columns.names, text)?;
        Ok(RowFile {
            file,
            columns,
            wants_header,
            lacks_header,
            lined: LinedRows::read(alloc, text)?,
        })
    }

    // The rows below its header, or below what stands in place of it.
    fn rows(&self) -> &[LinedRow] {
        match self.lined.rows.split_first() {
            Some((_, below)) if self.wants_header => below,
            _ => &self.lined.rows,
        }
    }

    // Adds the first fields of its rows, each behind its table. What stands in place of a header may be a row.
    fn push_known<'f>(&'f self, known: &mut Vec<(TableName, &'f [u8])>) -> Result<(), AllocError> {
        let rows = if self.lacks_header {
            self.lined.rows.as_slice()
        } else {
            self.rows()
        };
        for row in rows {
            known.push((self.file.name, self.lined.field(row, 0)))?;
        }
        Ok(())
    }

    // Whether a row has as many fields as there are columns.
    fn has_width(&self, row: &LinedRow) -> bool {
        row.width == self.columns.forms.len()
    }

    fn is_in_form(&self, row: &LinedRow) -> bool {
        let mut forms = self.columns.forms.iter().enumerate();
        forms.all(|(column, form)| form.accepts(self.lined.field(row, column)))
    }

    fn key_field(&self, row: &LinedRow, column: usize) -> &[u8] {
        if column < self.columns.key {
            self.lined.field(row, column)
        } else {
            b""
        }
    }

    // The key of a row: its first one, two or three fields, with empty ones after them.
    fn key_of(&self, row: &LinedRow) -> [&[u8]; 3] {
        [
            self.key_field(row, 0),
            self.key_field(row, 1),
            self.key_field(row, 2),
        ]
    }

    // The keys of its rows that have its width, each with the place of its row, in ascending order.
    fn placed_keys<'f>(&'f self, alloc: Global) -> Result<Vec<([&'f [u8]; 3], usize)>, AllocError> {
        let mut placed = Vec::new(alloc);
        for (place, row) in self.rows().iter().enumerate() {
            if self.has_width(row) {
                placed.push((self.key_of(row), place))?;
            }
        }
        placed.sort_unstable();
        Ok(placed)
    }
}

impl<'f, 'k> FileCheck<'f, 'k> {
    fn of(
        alloc: Global,
        order: &PackOrder<'_>,
        file: &'f RowFile,
        known: &'k [(TableName, &'f [u8])],
    ) -> Result<FileCheck<'f, 'k>, AllocError> {
        let kind = order.attributes.name.kind;
        let placed = file.placed_keys(alloc)?;
        Ok(FileCheck {
            kind,
            file,
            placed,
            known,
            names_known: kind == Kind::Full || order.are_whole,
        })
    }

    fn no_table(&self, fault: TableError) -> WholeError {
        let file = self.file.file;
        WholeError::Pack(PackError::Table(NoTable { file, fault }))
    }

    fn no_key(&self, missing: NoKey) -> WholeError {
        match self.kind {
            Kind::Full => WholeError::Pack(PackError::Reference(missing)),
            Kind::Diff | Kind::Incr => WholeError::Reference(missing),
        }
    }

    // The first row that has the key of a row, if it stands before that.
    fn earlier(&self, place: usize, row: &LinedRow) -> Option<usize> {
        let key = self.file.key_of(row);
        let start = self
            .placed
            .partition_point(|placed| placed.0.cmp(&key).is_lt());
        match self.placed.get(start) {
            Some((_, first)) if *first < place => Some(*first),
            _ => None,
        }
    }

    fn is_known(&self, of: TableName, key: &[u8]) -> bool {
        self.known.binary_search(&(of, key)).is_ok()
    }

    // The fault of a field, if it has one.
    fn field_fault(
        &self,
        alloc: Global,
        row: usize,
        column: usize,
        field: &[u8],
        form: Form,
    ) -> Result<Option<WholeError>, AllocError> {
        if !form.accepts(field) {
            let field = field.to_vec(alloc)?;
            return Ok(Some(self.no_table(TableError::FieldForm { row, column, field })));
        }
        let table = self.file.file.name;
        match named_table(table, column) {
            // A registrant may be left out.
            Some(of) if self.names_known && !field.is_empty() && !self.is_known(of, field) => {
                let key = field.to_vec(alloc)?;
                Ok(Some(self.no_key(NoKey {
                    table,
                    row,
                    column,
                    of,
                    key,
                })))
            }
            _ => Ok(None),
        }
    }

    // Adds the faults of a row, by column.
    fn push_row_faults(
        &self,
        alloc: Global,
        place: usize,
        row: &LinedRow,
        faults: &mut Vec<FileFault>,
    ) -> Result<(), AllocError> {
        let (file, line) = (self.file, row.line);
        if !file.has_width(row) {
            let fields = row.width;
            let error = self.no_table(TableError::ColumnCount { row: place, fields });
            faults.push(FileFault { line, error })?;
            return Ok(());
        }
        if file.is_in_form(row) {
            if let Some(earlier) = self.earlier(place, row) {
                let error = self.no_table(TableError::DuplicateKey {
                    row: place,
                    earlier,
                });
                faults.push(FileFault { line, error })?;
            }
        }
        for (column, form) in file.columns.forms.iter().enumerate() {
            let field = file.lined.field(row, column);
            if let Some(error) = self.field_fault(alloc, place, column, field, *form)? {
                faults.push(FileFault { line, error })?;
            }
        }
        Ok(())
    }

    // The faults of the file, by line.
    fn faults(&self, alloc: Global) -> Result<Vec<FileFault>, AllocError> {
        let mut faults = Vec::new(alloc);
        if self.file.lacks_header {
            let error = WholeError::Pack(PackError::Header(self.file.file));
            faults.push(FileFault { line: 1, error })?;
        }
        for (place, row) in self.file.rows().iter().enumerate() {
            self.push_row_faults(alloc, place, row, &mut faults)?;
        }
        Ok(faults)
    }
}

// Reads the files of a list, but those of deleted keys of a table whose keys are never deleted: U3 refuses them.
fn push_files(
    alloc: Global,
    list: FileList,
    tables: &[TableFile<'_>],
    wants_header: bool,
    files: &mut Vec<RowFile>,
) -> Result<(), AllocError> {
    for (place, TableFile { name, text }) in tables.iter().enumerate() {
        if list == FileList::Contents || name.has_deletes() {
            let name = *name;
            let file = FilePlace { list, place, name };
            files.push(RowFile::read(alloc, file, text, wants_header)?)?;
        }
    }
    Ok(())
}

// The files that a deposit of a kind may have, in its order.
fn read_files(alloc: Global, kind: Kind, source: &Source<'_>) -> Result<Vec<RowFile>, AllocError> {
    let mut files = Vec::new(alloc);
    let wants_header = source.has_headers;
    push_files(
        alloc,
        FileList::Contents,
        source.contents,
        wants_header,
        &mut files,
    )?;
    if kind != Kind::Full {
        push_files(
            alloc,
            FileList::Deletes,
            source.deletes,
            wants_header,
            &mut files,
        )?;
    }
    Ok(files)
}

// The keys that the files of tables have, each behind its table, in ascending order.
fn known_keys<'f>(
    alloc: Global,
    files: &'f [RowFile],
) -> Result<Vec<(TableName, &'f [u8])>, AllocError> {
    let mut known = Vec::new(alloc);
    for file in files {
        file.push_known(&mut known)?;
    }
    known.sort_unstable();
    Ok(known)
}

fn print_faults(
    rt: &HostRuntime,
    folder: &str,
    file: FilePlace,
    faults: &[FileFault],
) -> Result<(), ProgramError> {
    for FileFault { line, error } in faults {
        if eprintln!(rt; "{folder}/{file}.csv:{line}: {error}").is_err() {
            return Err(ProgramError::Output);
        }
    }
    Ok(())
}

/// Prints all faults of the files that are packed, in their order, and refuses them if there is one.
pub fn refuse_faults(
    rt: &HostRuntime,
    order: &PackOrder<'_>,
    source: &Source<'_>,
) -> Result<(), ProgramError> {
    let alloc = rt.alloc();
    let files = read_files(alloc, order.attributes.name.kind, source)?;
    let known = known_keys(alloc, &files)?;
    let mut count: usize = 0;
    clear_step(rt);
    for file in &files {
        let faults = FileCheck::of(alloc, order, file, &known)?.faults(alloc)?;
        print_faults(rt, order.tables, file.file, &faults)?;
        count = count.saturating_add(faults.len());
    }
    match count {
        0 => Ok(()),
        1 => Err(ProgramError::refused(alloc, "1 fault")),
        _ => Err(ProgramError::Refused(format!(in alloc; "{count} faults")?)),
    }
}
