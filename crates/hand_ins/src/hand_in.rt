// A hand-in, read line by line.
use crate::fields;
use crate::numbers::Size::{Four, One, Two};
use crate::numbers::append;
use anyhow::{Result, bail};
use models::layout::LENGTH;
use std::alloc::Global;
use verdict::Verdict;
use verdict::mark::{mark_model, mark_tableau};

#[derive(Clone, Copy)]
enum File {
    Book,
    Steps,
    Model,
    Pairs,
}

#[derive(Drop)]
pub(crate) struct HandIn<'a> {
    pub(crate) name: &'a str,
    heap: Global,
    // otherwise it is a model
    is_tableau: bool,
    book: Vec<u8>,
    steps: Vec<u8>,
    model: Vec<u8>,
    pairs: Vec<u8>,
    // the file that was written last, for `bytes`, `set` and `cut`
    last: File,
}

impl<'a> HandIn<'a> {
    pub(crate) fn new(heap: Global) -> HandIn<'a> {
        HandIn {
            name: "",
            heap,
            is_tableau: false,
            book: Vec::new(heap),
            steps: Vec::new(heap),
            model: Vec::new(heap),
            pairs: Vec::new(heap),
            last: File::Book,
        }
    }

    pub(crate) fn mark(&self) -> Verdict {
        if self.is_tableau {
            mark_tableau(&self.book, &self.steps)
        } else {
            mark_model(&self.book, &self.model, &self.pairs)
        }
    }

    // Begins another hand-in over the same book; its other files are empty.
    fn begin(&mut self, name: &'a str, is_tableau: bool) {
        self.name = name;
        self.is_tableau = is_tableau;
        self.steps.clear();
        self.model.clear();
        self.pairs.clear();
    }

    // The file to write; it becomes the last one written.
    fn file(&mut self, file: File) -> &mut Vec<u8> {
        self.last = file;
        match file {
            File::Book => &mut self.book,
            File::Steps => &mut self.steps,
            File::Model => &mut self.model,
            File::Pairs => &mut self.pairs,
        }
    }

    // Reads a line: `key` is its first word, `rest` what follows.
    pub(crate) fn read(&mut self, key: &str, rest: &'a str) -> Result<()> {
        let heap = self.heap;
        let last = self.last;
        match key {
            "tableau" => self.begin(rest, true),
            "model" => self.begin(rest, false),
            "book" => self.file(File::Book).clear(),
            "nodes" => append(heap, self.file(File::Book), &[One, Two, Two], rest)?,
            "entries" => append(heap, self.file(File::Book), &[One, Two, Two, Two], rest)?,
            "trailer" => append(heap, self.file(File::Book), &[Two, Two, Four], rest)?,
            "steps" => append(heap, self.file(File::Steps), &[One, Two, Two], rest)?,
            "pairs" => append(heap, self.file(File::Pairs), &[Four], rest)?,
            "elements" => {
                let model = self.file(File::Model);
                model.resize(LENGTH, 0)?;
                fields::write(heap, model, key, rest)?;
            }
            "names" | "roles" | "individuals" => {
                fields::write(heap, self.file(File::Model), key, rest)?;
            }
            "bytes" => append(heap, self.file(last), &[One], rest)?,
            "set" => fields::write(heap, self.file(last), key, rest)?,
            "cut" => self.file(last).truncate(rest.parse()?),
            _ => bail!("no such line"),
        }
        Ok(())
    }
}
