// Which paths lead to one file.
ghost use Rattle.std.specs.Prelude.{◌≡◌, Some};
ghost use Rattle.fzn_paths.specs.Identity.{is_one_of};

use std::fs;
use std::fs::{Files, Metadata, OpenFile};
use std::os::unix::fs::MetadataExt;

/// A regular file, by its device and its number there. All links to it have these.
#[derive(Clone, Copy, Debug, PartialEq, Eq)]
pub struct FileId {
    device: u64,
    number: u64,
}

/// Which regular file is open: none where it is a pipe, a terminal or a folder, or the system does not say.
pub fn file_of<F: OpenFile>(file: &F) -> Option<FileId> {
    match file.metadata() {
        Ok(metadata) => regular(&metadata),
        Err(_) => None,
    }
}

/// To which regular file a path leads, links followed: none where nothing is there, or no regular file.
pub fn file_at<R: Files>(files: &R, path: &str) -> Option<FileId> {
    match fs::metadata(files, path) {
        Ok(metadata) => regular(&metadata),
        Err(_) => None,
    }
}

fn regular(metadata: &Metadata) -> Option<FileId> {
    metadata.is_file().then_some(FileId {
        device: metadata.dev(),
        number: metadata.ino(),
    })
}

/// Whether it is a regular file, and one of these.
pub fn is_among(file: Option<FileId>, files: &[Option<FileId>]) -> bool
    ensures { result ≡ is_one_of file files.now }
{
    file.is_some() && files.contains(&file)
}
