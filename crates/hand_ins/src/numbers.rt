// Numbers: from text to bytes.
use anyhow::{Context, Result, ensure};
use std::alloc::Global;

// The size of a number in a file, in bytes. The low byte comes first.
#[derive(Clone, Copy)]
pub(crate) enum Size {
    One,
    Two,
    Four,
}

// Decimal numbers, separated by spaces.
pub(crate) fn numbers(heap: Global, text: &str) -> Result<Vec<u32>> {
    let mut numbers = Vec::new(heap);
    for word in text.split_whitespace() {
        let number = word
            .parse::<u32>()
            .context(format_args!("no number: {word}"))?;
        numbers.push(number)?;
    }
    Ok(numbers)
}

pub(crate) fn push(bytes: &mut Vec<u8>, number: u32, size: Size) -> Result<()> {
    match size {
        Size::One => bytes.push(u8::try_from(number)?)?,
        Size::Two => bytes.extend_from_slice(&u16::try_from(number)?.to_le_bytes())?,
        Size::Four => bytes.extend_from_slice(&number.to_le_bytes())?,
    }
    Ok(())
}

// The bytes of a record: one number for each size.
fn record(heap: Global, sizes: &[Size], text: &str) -> Result<Vec<u8>> {
    let numbers = numbers(heap, text)?;
    ensure!(
        numbers.len() == sizes.len(),
        "a record of {} numbers",
        numbers.len()
    );
    let mut bytes = Vec::new(heap);
    for (number, size) in numbers.iter().zip(sizes) {
        push(&mut bytes, *number, *size)?;
    }
    Ok(bytes)
}

// Appends comma-separated records; one that ends in `x 3` is written three times.
pub(crate) fn append(heap: Global, file: &mut Vec<u8>, sizes: &[Size], text: &str) -> Result<()> {
    for item in text.split(',') {
        let (text, times) = item.split_once('x').unwrap_or((item, "1"));
        let record = record(heap, sizes, text)?;
        for _ in 0..times.trim().parse::<u32>()? {
            file.extend_from_slice(&record)?;
        }
    }
    Ok(())
}
