//! Reading files, and making new ones.
use crate::errors::ProgramError;
use crate::steps::show_file;
use std::alloc::Global;
use std::fs::{self, DirEntry, OpenOptions};
use std::io::{self, ErrorKind, Write};

/// A file that is to be made: its path, and its bytes.
#[derive(Drop)]
pub struct NewFile<'b> {
    pub path: String,
    pub bytes: &'b [u8],
}

pub fn read_file(rt: &HostRuntime, path: &str) -> Result<Vec<u8>, ProgramError> {
    match fs::read(rt, path) {
        Ok(bytes) => Ok(bytes),
        Err(error) => Err(ProgramError::by_file(rt.alloc(), path, error)),
    }
}

/// The bytes of a file, if it is there.
pub fn read_if_there(rt: &HostRuntime, path: &str) -> Result<Option<Vec<u8>>, ProgramError> {
    match fs::read(rt, path) {
        Ok(bytes) => Ok(Some(bytes)),
        Err(error) if error.kind() == ErrorKind::NotFound => Ok(None),
        Err(error) => Err(ProgramError::by_file(rt.alloc(), path, error)),
    }
}

// The name of an entry of a folder.
fn entry_name(rt: &HostRuntime, entry: io::Result<DirEntry>) -> io::Result<String> {
    Ok(String::from_str(rt.alloc(), entry?.file_name())?)
}

/// The names of the files in a folder.
pub fn list_files(rt: &HostRuntime, folder: &str) -> Result<Vec<String>, ProgramError> {
    let mut names = Vec::new(rt.alloc());
    let entries = match fs::read_dir(rt, folder) {
        Ok(entries) => entries,
        Err(error) if error.kind() == ErrorKind::NotFound => {
            return Err(ProgramError::of_file(rt.alloc(), folder, "folder missing"));
        }
        Err(error) => return Err(ProgramError::by_file(rt.alloc(), folder, error)),
    };
    for entry in entries {
        match entry_name(rt, entry) {
            Ok(name) => names.push(name)?,
            Err(error) => return Err(ProgramError::by_file(rt.alloc(), folder, error)),
        }
    }
    Ok(names)
}

/// The last piece of a path.
pub fn file_name(path: &str) -> &str {
    match path.rsplit_once('/') {
        Some((_, name)) => name,
        None => path,
    }
}

// Makes the folders that are not there.
fn make_folders(rt: &HostRuntime, folders: &[&str]) -> Result<(), ProgramError> {
    for folder in folders {
        if let Err(error) = fs::create_dir_all(rt, folder) {
            return Err(ProgramError::by_file(rt.alloc(), folder, error));
        }
    }
    Ok(())
}

// The name under which a file is written before it has its own.
fn draft_path(alloc: Global, path: &str) -> Result<String, ProgramError> {
    Ok(format!(in alloc; "{path}.tmp")?)
}

/// Whether there is a file or a folder at a path.
pub fn is_there(rt: &HostRuntime, path: &str) -> bool {
    fs::symlink_metadata(rt, path).is_ok()
}

/// Whether there is a folder at a path.
pub fn is_folder(rt: &HostRuntime, path: &str) -> bool {
    match fs::metadata(rt, path) {
        Ok(found) => found.is_dir(),
        Err(_) => false,
    }
}

fn find_none(rt: &HostRuntime, files: &[NewFile<'_>]) -> Result<(), ProgramError> {
    for file in files {
        if is_there(rt, &file.path) {
            let alloc = rt.alloc();
            return Err(ProgramError::of_file(alloc, &file.path, "file is there already"));
        }
    }
    Ok(())
}

// Writes a file under another name, or removes it.
fn write_draft(rt: &HostRuntime, file: &NewFile<'_>) -> Result<(), ProgramError> {
    let path = draft_path(rt.alloc(), &file.path)?;
    let opened = OpenOptions::new()
        .write(true)
        .create_new(true)
        .open(rt, &path);
    let written = match opened {
        Ok(mut draft) => draft.write_all(file.bytes).and_then(|()| draft.sync_all()),
        Err(error) => return Err(ProgramError::by_file(rt.alloc(), &path, error)),
    };
    match written {
        Ok(()) => Ok(()),
        Err(error) => {
            let _ = fs::remove_file(rt, &path);
            Err(ProgramError::by_file(rt.alloc(), &path, error))
        }
    }
}

// Writes all files under other names, or none.
fn write_drafts(rt: &HostRuntime, files: &[NewFile<'_>]) -> Result<(), ProgramError> {
    for (i, file) in files.iter().enumerate() {
        show_file(rt, "writing", &file.path, i, files.len());
        if let Err(error) = write_draft(rt, file) {
            remove_drafts(rt, &files[..i]);
            return Err(error);
        }
    }
    Ok(())
}

fn remove_drafts(rt: &HostRuntime, files: &[NewFile<'_>]) {
    for file in files {
        if let Ok(draft) = draft_path(rt.alloc(), &file.path) {
            let _ = fs::remove_file(rt, &draft);
        }
    }
}

// Gives a file its name.
fn name_draft(rt: &HostRuntime, path: &str) -> Result<(), ProgramError> {
    let draft = draft_path(rt.alloc(), path)?;
    match fs::rename(rt, &draft, path) {
        Ok(()) => Ok(()),
        Err(error) => Err(ProgramError::by_file(rt.alloc(), path, error)),
    }
}

fn remove_files(rt: &HostRuntime, files: &[NewFile<'_>]) {
    for file in files {
        let _ = fs::remove_file(rt, &file.path);
    }
}

// Gives all files their names, or removes them.
fn name_drafts(rt: &HostRuntime, files: &[NewFile<'_>]) -> Result<(), ProgramError> {
    for (i, file) in files.iter().enumerate() {
        if let Err(error) = name_draft(rt, &file.path) {
            remove_files(rt, &files[..i]);
            remove_drafts(rt, &files[i..]);
            return Err(error);
        }
    }
    Ok(())
}

// Settles the names of the files in folders.
fn sync_folders(rt: &HostRuntime, folders: &[&str]) -> Result<(), ProgramError> {
    for folder in folders {
        if let Err(error) = fs::File::open(rt, folder).and_then(|opened| opened.sync_all()) {
            return Err(ProgramError::by_file(rt.alloc(), folder, error));
        }
    }
    Ok(())
}

/// Makes files in folders, and those of the folders that are not there; of the files none may be there. Each is written
/// and synced under another name, and gets its own when all are. It makes all files, or none.
pub fn make_files(
    rt: &HostRuntime,
    folders: &[&str],
    files: &[NewFile<'_>],
) -> Result<(), ProgramError> {
    find_none(rt, files)?;
    make_folders(rt, folders)?;
    write_drafts(rt, files)?;
    name_drafts(rt, files)?;
    sync_folders(rt, folders)
}
