// The hand-in in a folder, and its verdict.
ghost use Rattle.std.specs.Prelude.{◌≡◌, ◌≢◌, Some, None, IfOk, IfErr, IfSome, OnErr, vec_items};
ghost use Rattle.std.specs.Option.{option_map};
ghost use Rattle.verdict.specs.Marks.{marked_part};
ghost use Rattle.folders.specs.Files.{counted, Files, InFolder};
ghost use Rattle.folders.specs.HandIns.{HandInMark, ReadFrom, Unread, FilesMark};

use crate::folder::{Folder, read};
use std::alloc::Global;
use std::io;
use verdict::Verdict;
use verdict::mark::{mark_model, mark_tableau};

/// The bytes of a hand-in.
#[derive(Drop)]
pub enum HandIn {
    Tableau {
        book: Vec<u8>,
        steps: Vec<u8>,
    },
    Model {
        book: Vec<u8>,
        model: Vec<u8>,
        pairs: Vec<u8>,
    },
}

/// A file of a hand-in is there, but cannot be read.
#[derive(Drop)]
pub struct ReadFault {
    /// The name of the file.
    pub name: &'static str,
    pub error: io::Error,
}

// The bytes of a file of a hand-in, or `None` if the folder has no such file.
fn part<F: Folder>(
    heap: Global,
    folder: &F,
    name: &'static str,
) -> Result<Option<Vec<u8>>, ReadFault>
    ensures read { IfOk result (λ bytes.
        IfSome (F.known folder.now name.now) (λ is.
        option_map vec_items bytes ≡ option_map marked_part is)) }
    ensures named { IfErr result (λ fault. fault.name.now ≡ name.now) }
    ensures failed { OnErr result (F.known folder.now name.now ≢ Some None) }
{
    read(heap, folder, name).map_err(|error| ReadFault { name, error })
}

// The bytes of a file of a hand-in. A missing file counts as empty.
fn part_or_empty<F: Folder>(
    heap: Global,
    folder: &F,
    name: &'static str,
) -> Result<Vec<u8>, ReadFault>
    ensures read { IfOk result (λ bytes.
        IfSome (F.known folder.now name.now) (λ is. bytes.items ≡ counted is)) }
    ensures named { IfErr result (λ fault. fault.name.now ≡ name.now) }
    ensures failed { OnErr result (F.known folder.now name.now ≢ Some None) }
{
    Ok(part(heap, folder, name)?.unwrap_or(Vec::new(heap)))
}

impl HandIn {
    /// Reads the tableau in a folder or, if the folder has no `steps.bin`, the model. Any other missing file counts as
    /// empty. Of each file only the first 65,535 bytes count.
    pub fn read<F: Folder>(heap: Global, folder: &F) -> Result<HandIn, ReadFault>
        ensures read { IfOk result (λ hand_in.
            (fs : Files) × InFolder (F.known folder.now) fs × ReadFrom fs hand_in) }
        ensures failed { IfErr result (λ fault.
            (fs : Files) × InFolder (F.known folder.now) fs × Unread fs fault.name.now) }
    {
        let book = part_or_empty(heap, folder, "book.bin")?;
        match part(heap, folder, "steps.bin")? {
            Some(steps) => Ok(HandIn::Tableau { book, steps }),
            None => {
                let model = part_or_empty(heap, folder, "model.bin")?;
                let pairs = part_or_empty(heap, folder, "pairs.bin")?;
                Ok(HandIn::Model { book, model, pairs })
            }
        }
    }

    /// The verdict on the hand-in.
    pub fn mark(&self) -> Verdict
        ensures { HandInMark self.now result }
    {
        match self {
            HandIn::Tableau { book, steps } => mark_tableau(book, steps),
            HandIn::Model { book, model, pairs } => mark_model(book, model, pairs),
        }
    }
}

/// The verdict on the hand-in in a folder.
pub fn mark_folder<F: Folder>(heap: Global, folder: &F) -> Result<Verdict, ReadFault>
    ensures marked { IfOk result (λ verdict.
        (fs : Files) × InFolder (F.known folder.now) fs × FilesMark fs verdict) }
    ensures failed { IfErr result (λ fault.
        (fs : Files) × InFolder (F.known folder.now) fs × Unread fs fault.name.now) }
{
    Ok(HandIn::read(heap, folder)?.mark())
}
