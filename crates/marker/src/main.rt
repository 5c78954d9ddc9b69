// Marks the hand-in in each folder that is named, or in the current folder if none is named: prints the line of its
// verdict.
#![tactic(auto)]

ghost use Rattle.std.specs.Prelude.{OnOk, IfErr};
ghost use Rattle.std.specs.Io.KnownBytes.{Appends};
ghost use Rattle.verdict.specs.declared.Verdict.{Verdict};
ghost use Rattle.verdict.specs.Lines.{line_of};
ghost use Rattle.folders.specs.Files.{Files, InFolder};
ghost use Rattle.folders.specs.HandIns.{FilesMark};
ghost use Rattle.marker.specs.Failures.{KeptIfUnread};

use anyhow::{Context, Error, Result, ensure};
use folders::disk::Disk;
use folders::folder::Folder;
use folders::hand_in::{ReadFault, mark_folder};
use std::alloc::Global;
use std::io::Write;
use std::{env, fs, io};
use verdict::Verdict;
use verdict::line::{LONGEST, line};

// Writes the line of a verdict, and nothing else.
fn write_line<W: Write>(out: &mut W, verdict: Verdict) -> io::Result<()>
    ensures { OnOk result (Appends (W.contents out.old) (W.contents out.new) (line_of verdict)) }
{
    let mut buffer = [0; LONGEST];
    let length = line(verdict, &mut buffer).unwrap();
    out.write_all(&buffer[..length])
}

// Why a folder is not marked: a file cannot be read, or the line cannot be written.
#[derive(Drop)]
enum Failure {
    Read(ReadFault),
    Write(io::Error),
}

// Marks the hand-in in a folder and writes the line of its verdict, and nothing else. If a file cannot be read, nothing
// is written.
fn mark<F: Folder, W: Write>(heap: Global, folder: &F, out: &mut W) -> Result<(), Failure>
    ensures marked { OnOk result ((fs : Files) × InFolder (F.known folder.now) fs
        × ((v : Verdict) × FilesMark fs v
        × Appends (W.contents out.old) (W.contents out.new) (line_of v))) }
    ensures failed { IfErr result (λ failure.
        KeptIfUnread failure (W.contents out.old) (W.contents out.new)) }
{
    match mark_folder(heap, folder) {
        Ok(verdict) => write_line(out, verdict).map_err(Failure::Write),
        Err(fault) => Err(Failure::Read(fault)),
    }
}

// The failure as the error of the program.
fn error_of(failure: Failure) -> Error {
    match failure {
        Failure::Read(ReadFault { name, error }) => Error::from(error).context(format_args!(
            "reading {name}"
        )),
        Failure::Write(error) => Error::from(error),
    }
}

// Marks the hand-in in the folder of a path.
fn mark_path(rt: &HostRuntime, path: &str) -> Result<()> {
    let is_folder = fs::metadata(rt, path).is_ok_and(|file| file.is_dir());
    ensure!(is_folder, "no such folder: {path}");
    mark(rt.alloc(), &Disk { rt, path }, &mut io::writer(rt))
        .map_err(error_of)
        .context(format_args!("in the folder {path}"))
}

fn main(rt: HostRuntime) -> Result<()> {
    let mut arguments = env::args(&rt)?;
    let _program = arguments.next();
    match arguments.next() {
        None => mark(
            rt.alloc(),
            &Disk { rt: &rt, path: "" },
            &mut io::writer(&rt),
        )
        .map_err(error_of),
        Some(first) => {
            mark_path(&rt, &first)?;
            for path in arguments {
                mark_path(&rt, &path)?;
            }
            Ok(())
        }
    }
}
