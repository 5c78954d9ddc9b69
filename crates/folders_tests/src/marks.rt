// Which file is marked as what, and what a missing file counts as.
ghost use Rattle.std.specs.Prelude.{None};

use crate::memory::Memory;
use books::sample;
use folders::folder::Folder;
use folders::hand_in::mark_folder;
use models::sample::model_bytes;
use std::alloc::Global;
use std::io;
use std::io::ErrorKind;
use std::process::Abort;
use std::test::Fail;
use verdict::Verdict;
use verdict::line::line;

// The sample book, sealed: kinds and operands, then the trailer.
const BOOK: [u8; 64] = [
    2, 0, 0, 0, 0, 2, 1, 0, 0, 0, 2, 2, 0, 0, 0, 8, 0, 0, 0, 0, 4, 0, 0, 1, 0, 8, 4, 0, 0, 0, 3, 2,
    0, 0, 0, 1, 3, 0, 2, 0, 0, 0, 1, 5, 0, 6, 0, 0, 0, 2, 0, 0, 5, 0, 0, 0, 7, 0, 3, 0, 56, 0, 0,
    0,
];

const PAIRS: [u8; 8] = [2, 0, 0, 0, 0, 0, 0, 0];

fn prints(rt: &impl Abort, verdict: Verdict, expected: &str) {
    let mut out = [0; 33];
    let length = line(verdict, &mut out).unwrap();
    assert_eq!(rt; &out[..length], expected.as_bytes());
}

fn marks<F: Folder>(rt: &(impl Abort + AllocGlobal), folder: &F, expected: &str) {
    match mark_folder(rt.alloc(), folder) {
        Ok(verdict) => prints(rt, verdict, expected),
        Err(fault) => panic!(rt; "{} cannot be read", fault.name),
    }
}

#[test]
fn hand_ins(rt: HostRuntime) -> Result<(), Fail> {
    let model_bytes = model_bytes();
    let model = Memory {
        book: Some(&BOOK),
        steps: None,
        model: Some(&model_bytes),
        pairs: Some(&PAIRS),
    };
    marks(&rt, &model, "satisfied, elements 2\n");
    let swapped = Memory {
        model: model.pairs,
        pairs: model.model,
        ..model
    };
    marks(&rt, &swapped, "refused 7 at 2337\n");
    let tableau = Memory {
        steps: Some(&sample::WRONG_STEPS),
        ..model
    };
    marks(&rt, &tableau, "refused 10 at 6\n");
    let no_steps = Memory {
        steps: Some(&[]),
        ..model
    };
    marks(&rt, &no_steps, "refused 13 at 0\n");
    Ok(())
}

#[test]
fn missing_files(rt: HostRuntime) -> Result<(), Fail> {
    let empty = Memory {
        book: None,
        steps: None,
        model: None,
        pairs: None,
    };
    marks(&rt, &empty, "refused 19 at 0\n");
    let only_book = Memory {
        book: Some(&BOOK),
        ..empty
    };
    marks(&rt, &only_book, "refused 7 at 0\n");
    let no_book = Memory {
        steps: Some(&sample::WRONG_STEPS),
        ..empty
    };
    marks(&rt, &no_book, "refused 19 at 0\n");
    Ok(())
}

// A folder that has each file, and in which one cannot be opened.
struct Locked<'a>(&'a str);

impl Folder for Locked<'_> {
    type File = &'static [u8];

    ghost known = { λ _ _. None };

    fn open(&self, name: &str) -> io::Result<Option<&'static [u8]>> {
        if name == self.0 {
            return Err(io::Error::from(ErrorKind::PermissionDenied));
        }
        Ok(Some(&[]))
    }
}

// The name in the error, or none where there is a verdict.
fn unread<F: Folder>(heap: Global, folder: &F) -> Option<&'static str> {
    mark_folder(heap, folder).err().map(|fault| fault.name)
}

#[test]
fn unreadable_files(rt: HostRuntime) -> Result<(), Fail> {
    assert_eq!(rt; unread(rt.alloc(), &Locked("book.bin")), Some("book.bin"));
    assert_eq!(rt; unread(rt.alloc(), &Locked("steps.bin")), Some("steps.bin"));
    assert_eq!(rt; unread(rt.alloc(), &Locked("model.bin")), None);
    Ok(())
}
