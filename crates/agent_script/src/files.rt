//! The files that a script names.
use crate::fault::ScriptFault;
use crate::stopping::BLOCK;
use std::alloc::{AllocError, Global};
use std::ops::RangeInclusive;

#[derive(Drop)]
struct Named {
    name: String,
    bytes: Vec<u8>,
}

/// Files with their names.
#[derive(Drop)]
pub struct Files {
    named: Vec<Named>,
}

impl Files {
    pub fn new(alloc: Global) -> Files {
        Files {
            named: Vec::new(alloc),
        }
    }

    fn add(&mut self, alloc: Global, name: &str, bytes: Vec<u8>) -> Result<(), AllocError> {
        let name = String::from_str(alloc, name)?;
        self.named.push(Named { name, bytes })?;
        Ok(())
    }

    /// A file of a text, in which `\n` stands for a line feed.
    pub fn add_text(&mut self, alloc: Global, name: &str, text: &str) -> Result<(), AllocError> {
        let text = text.replace(alloc, "\\n", "\n")?;
        let bytes = Vec::from_slice(alloc, text.as_bytes())?;
        self.add(alloc, name, bytes)
    }

    /// A file of so many bytes, those of each block the next letter.
    pub fn add_lettered(
        &mut self,
        alloc: Global,
        name: &str,
        len: usize,
    ) -> Result<(), AllocError> {
        let mut bytes = Vec::with_capacity(alloc, len)?;
        for at in 0..len {
            bytes.push(b'a' + (at / BLOCK % 26) as u8)?;
        }
        self.add(alloc, name, bytes)
    }

    /// More text for the file that was named last.
    pub fn lengthen(&mut self, text: &str) -> Result<(), AllocError> {
        match self.named.last_mut() {
            Some(file) => file.bytes.extend_from_slice(text.as_bytes()),
            None => Ok(()),
        }
    }

    /// More rows for the file that was named last: a text once for each of these numbers, with the number
    /// where `#` stands.
    pub fn add_rows(
        &mut self,
        alloc: Global,
        numbers: RangeInclusive<u32>,
        text: &str,
    ) -> Result<(), AllocError> {
        let text = text.replace(alloc, "\\n", "\n")?;
        for number in numbers {
            let number = format!(in alloc; "{number}")?;
            let row = text.replace(alloc, "#", number.as_str())?;
            self.lengthen(row.as_str())?;
        }
        Ok(())
    }

    pub fn find(&self, name: &str) -> Result<&[u8], ScriptFault> {
        match self.named.iter().find(|file| file.name.as_str() == name) {
            Some(file) => Ok(&file.bytes),
            None => Err(ScriptFault::Line),
        }
    }
}
