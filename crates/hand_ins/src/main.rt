// Marks stored hand-ins, compares each line with the expected one, and counts the verdicts.
#![tactic(auto)]

mod fields;
mod hand_in;
mod numbers;
mod tally;

use anyhow::{Context, Result, ensure};
use hand_in::HandIn;
use std::fs;
use tally::Tally;
use verdict::line::{LONGEST, line};

// The texts in data/. data/README.md has their format.
const FILES: [&str; 4] = ["books.txt", "tableaux.txt", "models.txt", "limits.txt"];

// Marks a hand-in; prints its name, its line, and whether it is the expected one.
fn mark(rt: &impl Print, hand_in: &HandIn, expected: &str, tally: &mut Tally) -> Result<()> {
    let verdict = hand_in.mark();
    let mut buffer = [0; LONGEST];
    let length = line(verdict, &mut buffer).unwrap();
    let line = str::from_utf8(&buffer[..length])?;
    let text = line.strip_suffix('\n').context("no line feed")?;
    let as_expected = text == expected;
    tally.count(verdict, as_expected)?;
    print!(rt; "  {}: {text}, ", hand_in.name)?;
    if as_expected {
        println!(rt; "as expected")?;
    } else {
        println!(rt; "NOT AS EXPECTED: {expected}")?;
    }
    Ok(())
}

// Marks the hand-ins of a text, each at its line `expect`.
fn mark_all<R: Print + AllocGlobal>(rt: &R, text: &str, tally: &mut Tally) -> Result<()> {
    let mut hand_in = HandIn::new(rt.alloc());
    for line in text.lines() {
        let (key, rest) = line.split_once(' ').unwrap_or((line, ""));
        match key {
            "" | "#" => {}
            "expect" => mark(rt, &hand_in, rest, tally)?,
            _ => hand_in
                .read(key, rest)
                .context(format_args!("in the line {line}"))?,
        }
    }
    Ok(())
}

fn main(rt: HostRuntime) -> Result<()> {
    let mut tally = Tally::default();
    for file in FILES {
        println!(rt; "== {file}")?;
        let text = fs::read_to_string(&rt, file).context(format_args!("reading {file}"))?;
        mark_all(&rt, text.as_str(), &mut tally)?;
    }
    tally.print(&rt)?;
    ensure!(tally.all_as_expected(), "a hand-in is not as expected");
    Ok(())
}
