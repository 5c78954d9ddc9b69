// Folders, whose files are found by their names.
ghost use Rattle.std.specs.Prelude.{◌≡◌, ◌≢◌, ℕ, List, Some, None, IfOk, IfSome, OnErr, vec_items};
ghost use Rattle.std.specs.Option.{option_map};
ghost use Rattle.std.specs.declared.option.Option.{Option};
ghost use Rattle.verdict.specs.Marks.{marked_part};
ghost use Rattle.folders.specs.Files.{File, OpenedFile};

use std::alloc::Global;
use std::io;
use std::io::Read;
use verdict::mark::WHOLE;

/// A folder from which a hand-in is read.
pub trait Folder {
    /// A file that is open for reading.
    type File: Read + Drop;

    // What is known of the file of a name: its bytes, or that there is no such file. `None`: nothing is known.
    ghost known: { Self → List ℕ → Option File };

    /// Opens the file of a name. The answer is `None` if the folder has no such file, and an error if it has one that
    /// cannot be opened.
    fn open(&self, name: &str) -> io::Result<Option<Self::File>>
        ensures opened { IfOk result (λ file.
            IfSome (known self.now name.now) (λ is. OpenedFile Self.File.remaining is file)) }
        ensures failed { OnErr result (known self.now name.now ≢ Some None) };
}

// The first 65,535 bytes, or fewer if there are fewer.
fn first_bytes<R: Read + Drop>(heap: Global, file: R) -> io::Result<Vec<u8>>
    ensures { IfOk result (λ bytes.
        IfSome (R.remaining file) (λ all. bytes.items ≡ marked_part all)) }
{
    let mut bytes = Vec::new(heap);
    file.take(WHOLE as u64).read_to_end(&mut bytes)?;
    Ok(bytes)
}

// The first 65,535 bytes of the file of a name, or `None` if the folder has no such file.
pub(crate) fn read<F: Folder>(heap: Global, folder: &F, name: &str) -> io::Result<Option<Vec<u8>>>
    ensures read { IfOk result (λ bytes.
        IfSome (F.known folder.now name.now) (λ is.
        option_map vec_items bytes ≡ option_map marked_part is)) }
    ensures failed { OnErr result (F.known folder.now name.now ≢ Some None) }
{
    match folder.open(name)? {
        Some(file) => Ok(Some(first_bytes(heap, file)?)),
        None => Ok(None),
    }
}
