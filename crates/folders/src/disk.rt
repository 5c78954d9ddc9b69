// Folders on the disk.
ghost use Rattle.std.specs.Prelude.{None};

use crate::folder::Folder;
use std::io::ErrorKind;
use std::path::Path;
use std::rt::Files;
use std::{fs, io};

/// A folder on the disk. No contract can say what is on a disk, so nothing is known of its files.
#[derive(Clone, Copy)]
pub struct Disk<'a, R> {
    pub rt: &'a R,
    /// The path of the folder; empty for the current folder.
    pub path: &'a str,
}

impl<R: Files + AllocGlobal> Folder for Disk<'_, R> {
    type File = R::File;

    ghost known = { λ _ _. None };

    fn open(&self, name: &str) -> io::Result<Option<R::File>> {
        let path = Path::new(self.path).join(self.rt.alloc(), name)?;
        match fs::open(self.rt, path) {
            Ok(file) => Ok(Some(file)),
            Err(error) if error.kind() == ErrorKind::NotFound => Ok(None),
            Err(error) => Err(error),
        }
    }
}
