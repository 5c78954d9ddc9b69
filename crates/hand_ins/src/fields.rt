// Fields: numbers that replace bytes of a file.
use crate::numbers::Size::{Four, One};
use crate::numbers::{Size, numbers, push};
use anyhow::{Context, Result};
use models::layout::{ELEMENTS, FIRST_INDIVIDUAL, FIRST_NAME, FIRST_ROLE, SET};
use std::alloc::Global;

// A number, its place in the file and its size.
#[derive(Clone, Copy)]
struct Field {
    at: usize,
    size: Size,
    number: u32,
}

// The field that a line sets: one of an interpretation, or one byte of any file.
fn field_of(key: &str, numbers: &[u32]) -> Option<Field> {
    let (at, size, number) = match (key, numbers) {
        ("elements", [n]) => (0, One, *n),
        ("names", [i, mask]) => (FIRST_NAME + SET * *i as usize, Four, *mask),
        ("roles", [role, x, mask]) => {
            let row = ELEMENTS * *role as usize + *x as usize;
            (FIRST_ROLE + SET * row, Four, *mask)
        },
        ("individuals", [i, x]) => (FIRST_INDIVIDUAL + *i as usize, One, *x),
        ("set", [at, byte]) => (*at as usize, One, *byte),
        _ => return None,
    };
    Some(Field { at, size, number })
}

// Writes comma-separated fields.
pub(crate) fn write(heap: Global, file: &mut Vec<u8>, key: &str, text: &str) -> Result<()> {
    for item in text.split(',') {
        let field = field_of(key, &numbers(heap, item)?).context("no such field")?;
        let mut bytes = Vec::new(heap);
        push(&mut bytes, field.number, field.size)?;
        for (i, byte) in bytes.iter().enumerate() {
            *file
                .get_mut(field.at.saturating_add(i))
                .context("past the end")? = *byte;
        }
    }
    Ok(())
}
