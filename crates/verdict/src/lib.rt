// Verdicts, and the line that is printed for each.
#![tactic(auto)]

pub mod laws;
pub mod line;
pub mod mark;
pub mod mark_fault;
pub mod rows;

/// The verdict on a hand-in.
#[derive(Clone, Copy)]
pub enum Verdict {
    /// A closed tableau, and the number of entries that it used.
    Closed(u32),
    /// A model of the book, and the number of its elements.
    Satisfied(u32),
    /// Refused: the number of the refusal, and its place.
    Refused { number: u32, place: u32 },
}
