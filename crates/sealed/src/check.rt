// Checking sealed bytes: the trailer, then the nodes and the entries in turn.
ghost use Rattle.std.specs.Prelude.{◌≡◌, ◌<◌, true, List, MatchResult, slice_index_or};
ghost use Rattle.logic.specs.declared.records.Node.{Node};
ghost use Rattle.logic.specs.Concepts.{concepts};
ghost use Rattle.books.specs.Answers.{IsPlainnessOf};
ghost use Rattle.sealed.specs.Frames.{first_nodes};
ghost use Rattle.sealed.specs.Checks.{CheckAnswer};
ghost use Rattle.sealed.specs.Steps.{PlainMarks, NodeChecked, NodesGranted, NodeFirstRefused, EntryChecked, EntriesChecked, FrameChecked};

use crate::bytes::{raw_entry_at, raw_node_at};
use crate::faults::CheckFault;
use crate::frame::Frame;
use books::offers::{PlainOperands, fitting_entry, fitting_node, plain_node, typical_node};
use logic::limits::NODES;

// The mark of node i: whether it is plain; true past the last mark.
fn mark_at(marks: &[bool], i: u16) -> bool
    ensures { result ≡ slice_index_or marks.now i true }
{
    marks.get(i as usize).copied().unwrap_or(true)
}

// Whether the nodes a and b are plain, by the marks of all.
fn plain_operands(marks: &[bool], a: u16, b: u16) -> PlainOperands
    ensures { (ns : List Node) → PlainMarks marks.now ns → IsPlainnessOf (concepts ns) a b result }
{
    PlainOperands {
        plain_a: mark_at(marks, a),
        plain_b: mark_at(marks, b),
    }
}

// Checks node i of a frame, by the marks of the nodes before it: its mark, or its fault. Separate from `check_entry`
// because the tests differ.
fn check_node(frame: &Frame, i: u16, marks: &[bool]) -> Result<bool, CheckFault>
    requires within { i < frame.now.counts.nodes }
    requires marked { PlainMarks marks.now (first_nodes frame.now i) }
    ensures { NodeChecked frame.now i result }
{
    let at = frame.node_place(i);
    let raw = raw_node_at(frame.bytes, at);
    let plain_operands = plain_operands(marks, raw.a, raw.b);
    let node = fitting_node(i, plain_operands, raw).map_err(|unfit| CheckFault::BadRecord(
        unfit, at,
    ))?;
    Ok(plain_node(node, plain_operands))
}

// A frame whose nodes were checked, with their marks.
#[derive(Drop)]
struct Marked<'a> {
    frame: Frame<'a>,
    marks: [bool; NODES as usize],
    ghost granted: { NodesGranted frame },
    ghost marked: { PlainMarks marks (first_nodes frame frame.counts.nodes) },
}

// Checks the nodes of a frame.
fn check_nodes<'a>(frame: Frame<'a>) -> Result<Marked<'a>, CheckFault>
    ensures { MatchResult result (λ m. m.frame ≡ frame.entry)
        (λ fault. NodeFirstRefused frame.entry fault) }
{
    let mut marks = [true; NODES as usize];
    for i in 0..frame.counts.nodes {
        marks[i as usize] = check_node(&frame, i, &marks)?;
    }
    Ok(Marked { frame, marks })
}

impl<'a> Marked<'a> {
    // Checks entry j, over these nodes.
    fn check_entry(&self, j: u16) -> Result<(), CheckFault>
        requires { j < self.now.frame.counts.entries }
        ensures { EntryChecked self.now.frame j result }
    {
        let at = self.frame.entry_place(j);
        let raw = raw_entry_at(self.frame.bytes, at);
        let typical_a = typical_node(self.frame.node_at(raw.a));
        let plain_operands = plain_operands(&self.marks, raw.a, raw.b);
        let judged = fitting_entry(self.frame.counts.nodes, typical_a, plain_operands, raw);
        judged.map_err(|unfit| CheckFault::BadRecord(unfit, at))?;
        Ok(())
    }

    // Checks all entries, over these nodes.
    fn check_entries(&self) -> Result<(), CheckFault>
        ensures { EntriesChecked self.now.frame result }
    {
        for j in 0..self.frame.counts.entries {
            self.check_entry(j)?;
        }
        Ok(())
    }
}

// The frame of the bytes if they pass, or else the first fault.
pub(crate) fn checked(bytes: &[u8]) -> Result<Frame, CheckFault>
    ensures { FrameChecked bytes.now result }
{
    let frame = Frame::read(bytes).ok_or(CheckFault::BadFrame(bytes.len()))?;
    check_nodes(frame)?.check_entries()?;
    Ok(frame)
}

// Checks whether the bytes are a sealed book: a note of any length, and then the writing of a lawful book.
pub fn check(bytes: &[u8]) -> Result<(), CheckFault>
    ensures { CheckAnswer bytes.now result }
{
    checked(bytes).map(|_| ())
}
