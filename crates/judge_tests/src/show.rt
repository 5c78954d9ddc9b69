// Models against the sample book: verdicts, and what the list holds.
use crate::marked::{empty_book, sample_book};
use books::book::EditableBook;
use judge::show::show;
use judge::show_faults::ShowFault::{EntryFails, Fill, OrderSize, View};
use logic::refusal::BadLength;
use models::faults::ViewFault::BadField;
use models::sample::model_bytes;
use orders::pairs::Pairs;
use orders::ranks::Ranks;
use std::test::Fail;

const ONE_BETTER: [u8; 8] = [2, 0, 0, 0, 0, 0, 0, 0];

#[test]
fn sample_model(rt: HostRuntime) -> Result<(), Fail> {
    let book = sample_book(rt.alloc())?;
    let mut pairs = Pairs::new();
    let _ = pairs.fill(&ONE_BETTER);
    let mut list = [9; 8];
    assert_eq!(rt; show(&book, &model_bytes(), &pairs, &mut list), Ok(2));
    assert_eq!(rt; list, [3, 1, 2, 2, 1, 1, 1, 0]);
    let mut ranks = Ranks::new();
    let _ = ranks.fill(&[0, 0]);
    assert_eq!(rt;
        show(&book, &model_bytes(), &ranks, &mut list),
        Err(EntryFails(0))
    );
    assert_eq!(rt; list, [3, 1, 2, 3, 1, 1, 1, 0]);
    Ok(())
}

// Entry 0 is false if neither element is better; once struck, it is ignored.
#[test]
fn struck_entry(rt: HostRuntime) -> Result<(), Fail> {
    let mut book = sample_book(rt.alloc())?;
    let _ = book.strike(0);
    let mut ranks = Ranks::new();
    let _ = ranks.fill(&[0, 0]);
    let mut list = [0; 7];
    assert_eq!(rt; show(&book, &model_bytes(), &ranks, &mut list), Ok(2));
    Ok(())
}

#[test]
fn length_of_the_list(rt: HostRuntime) -> Result<(), Fail> {
    let book = sample_book(rt.alloc())?;
    let mut pairs = Pairs::new();
    let _ = pairs.fill(&ONE_BETTER);
    let mut seven = [9; 7];
    assert_eq!(rt; show(&book, &model_bytes(), &pairs, &mut seven), Ok(2));
    assert_eq!(rt; seven, [3, 1, 2, 2, 1, 1, 1]);
    let mut six = [9; 6];
    assert_eq!(rt;
        show(&book, &model_bytes(), &pairs, &mut six),
        Err(Fill(BadLength(6)))
    );
    assert_eq!(rt; six, [0; 6]);
    Ok(())
}

#[test]
fn size_of_the_order(rt: HostRuntime) -> Result<(), Fail> {
    let book = sample_book(rt.alloc())?;
    let mut list = [9; 7];
    assert_eq!(rt;
        show(&book, &model_bytes(), &Ranks::new(), &mut list),
        Err(OrderSize(1))
    );
    assert_eq!(rt; list, [0; 7]);
    Ok(())
}

// 1 and 32 elements; 0 and 33.
#[test]
fn sizes(rt: HostRuntime) -> Result<(), Fail> {
    let book = empty_book(rt.alloc())?;
    let mut bytes = [0; 2337];
    let mut ranks = Ranks::new();
    assert_eq!(rt;
        show(&book, &bytes, &ranks, &mut []),
        Err(View(BadField(0)))
    );
    bytes[0] = 1;
    assert_eq!(rt; show(&book, &bytes, &ranks, &mut []), Ok(1));
    let _ = ranks.fill(&[7; 32]);
    bytes[0] = 32;
    assert_eq!(rt; show(&book, &bytes, &ranks, &mut []), Ok(32));
    bytes[0] = 33;
    assert_eq!(rt;
        show(&book, &bytes, &ranks, &mut []),
        Err(View(BadField(0)))
    );
    Ok(())
}
