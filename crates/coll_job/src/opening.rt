//! Opens the file of a job text.

use std::fs::{File, Files, OpenFile};
use std::io;
use std::io::ErrorKind;

/// Opens a file to be read. A folder is refused here: a system opens it like a file, but no byte of it can be read.
pub fn open_text<F: Files>(files: &F, name: &str) -> io::Result<F::File> {
    let file = File::open(files, name)?;
    if file.metadata()?.is_dir() {
        return Err(io::Error::from(ErrorKind::IsADirectory));
    }
    Ok(file)
}
