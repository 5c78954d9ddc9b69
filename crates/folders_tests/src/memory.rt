// A folder in memory, of which everything is known.
ghost use Rattle.std.specs.Prelude.{Some};
ghost use Rattle.folders_tests.specs.Memory.{file_in};

use folders::folder::Folder;
use std::io;

/// The files of a hand-in; `None`: there is no such file.
#[derive(Clone, Copy)]
pub struct Memory<'a> {
    pub book: Option<&'a [u8]>,
    pub steps: Option<&'a [u8]>,
    pub model: Option<&'a [u8]>,
    pub pairs: Option<&'a [u8]>,
}

impl<'a> Folder for Memory<'a> {
    type File = &'a [u8];

    ghost known = { λ folder name. Some (file_in folder name) };

    fn open(&self, name: &str) -> io::Result<Option<&'a [u8]>> {
        Ok(if name == "book.bin" {
            self.book
        } else if name == "steps.bin" {
            self.steps
        } else if name == "model.bin" {
            self.model
        } else if name == "pairs.bin" {
            self.pairs
        } else {
            None
        })
    }
}
