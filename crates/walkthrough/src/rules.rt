// Prints the rules of a book in words.
use books::book::ReadableBook;
use logic::records::{Entry, Node, StoredEntry};
use std::alloc::{AllocError, Global};
use std::fmt;

// The concept names of the sample book.
const NAMES: [&str; 3] = ["release", "yanked", "paired"];

// The text of node i; `texts` holds the texts of the earlier nodes.
fn text_of(texts: &[String], i: u16) -> &str {
    texts.get(i as usize).map_or("?", String::as_str)
}

// A node or an entry, to be printed with the texts of its operands.
#[derive(Drop)]
struct InWords<'a, T> {
    what: T,
    texts: &'a [String],
}

impl fmt::Display for InWords<'_, Node> {
    fn fmt<W: fmt::Write>(&self, f: &mut fmt::Formatter<W>) -> fmt::Result {
        let text = |c: u16| text_of(self.texts, c);
        match self.what {
            Node::Top => write!(f, "top"),
            Node::Bottom => write!(f, "bottom"),
            Node::Name(i) => match NAMES.get(i as usize) {
                Some(name) => write!(f, "{name}"),
                None => write!(f, "name {i}"),
            },
            Node::Not(c) => write!(f, "not {}", text(c)),
            Node::And(c, d) => write!(f, "({} and {})", text(c), text(d)),
            Node::Or(c, d) => write!(f, "({} or {})", text(c), text(d)),
            Node::All(role, c) => write!(f, "all role {role} {}", text(c)),
            Node::Exists(role, c) => write!(f, "some role {role} {}", text(c)),
            // already in parentheses
            Node::Typical(c) if text(c).starts_with('(') => write!(f, "T{}", text(c)),
            Node::Typical(c) => write!(f, "T({})", text(c)),
            Node::Absent => write!(f, "absent"),
        }
    }
}

impl fmt::Display for InWords<'_, Entry> {
    fn fmt<W: fmt::Write>(&self, f: &mut fmt::Formatter<W>) -> fmt::Result {
        let text = |c: u16| text_of(self.texts, c);
        match self.what {
            Entry::Inclusion(c, d) => write!(f, "{} in {}", text(c), text(d)),
            Entry::Fact(x, c) => write!(f, "individual {x} holds {}", text(c)),
            Entry::RoleFact(r, x, y) => write!(f, "role {r} leads from individual {x} to {y}"),
            Entry::Absent => write!(f, "absent"),
        }
    }
}

// The text of each node, bottom up. (A book is read by number.)
fn concepts<B: ReadableBook>(heap: Global, book: &B) -> Result<Vec<String>, AllocError> {
    let mut texts = Vec::new(heap);
    for i in 0..book.node_count() {
        let text = InWords {
            what: book.node_at(i),
            texts: texts.as_slice(),
        }
        .to_string(heap)?;
        texts.push(text)?;
    }
    Ok(texts)
}

// Prints each entry on a line. A loop, since each print can fail.
pub(crate) fn print<B: ReadableBook>(rt: &HostRuntime, book: &B) -> anyhow::Result<()> {
    let texts = concepts(rt.alloc(), book)?;
    println!(rt; "The book has {} nodes and these rules.", book.node_count())?;
    for i in 0..book.entry_count() {
        let StoredEntry { entry, live } = book.entry_at(i);
        let rule = InWords {
            what: entry,
            texts: texts.as_slice(),
        };
        let mark = if live { "" } else { " (struck)" };
        println!(rt; "  rule {i}: {rule}{mark}")?;
    }
    Ok(())
}
