// Files that are written from their beginning.
use crate::late::Target;
use std::fs::{File, Files};
use std::io;

/// A path at which a file is made; what stood there is cut to nothing.
#[derive(Drop)]
pub struct NewFile<'a, R: Files> {
    files: &'a R,
    path: &'a str,
}

impl<'a, R: Files> NewFile<'a, R> {
    /// Nothing is made yet.
    pub fn new(files: &'a R, path: &'a str) -> NewFile<'a, R> {
        NewFile { files, path }
    }
}

impl<'a, R: Files> Target<R::File> for NewFile<'a, R> {
    fn open(&mut self) -> io::Result<R::File> {
        File::create(self.files, self.path)
    }
}

/// A file that is open to be written, and is cut to nothing where it is a regular one.
#[derive(Drop)]
pub struct CutFile<'a> {
    file: &'a File,
}

impl<'a> CutFile<'a> {
    /// Nothing is cut yet.
    pub fn new(file: &'a File) -> CutFile<'a> {
        CutFile { file }
    }
}

impl<'a> Target<&'a File> for CutFile<'a> {
    fn open(&mut self) -> io::Result<&'a File> {
        if self.file.metadata()?.is_file() {
            self.file.set_len(0)?;
        }
        Ok(self.file)
    }
}
