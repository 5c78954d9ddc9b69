// Seals a book into bytes, and opens them again.
use crate::{calls, rules};
use books::book::ReadableBook;
use sealed::seal::seal;
use sealed::sealed_book::SealedBook;
use std::io;

// Prints the last eight bytes in hex. A loop, since each print can fail.
fn print_trailer(rt: &impl Print, bytes: &[u8]) -> io::Result<()> {
    for byte in &bytes[bytes.len().saturating_sub(8)..] {
        print!(rt; " {byte:02x}")?;
    }
    println!(rt; "")
}

pub(crate) fn seal_and_open<B: ReadableBook>(rt: &HostRuntime, book: &B) -> anyhow::Result<()> {
    let mut out = [0; 128];
    match seal(book, &mut out) {
        Ok(length) => {
            print!(rt; "  seal: {length} bytes, ending")?;
            let bytes = &out[..length];
            print_trailer(rt, bytes)?;
            println!(rt; "The bytes are opened.")?;
            rules::print(rt, &SealedBook::open(bytes))
        }
        Err(fault) => Ok(calls::print_refusal(rt, &fault)?),
    }
}
