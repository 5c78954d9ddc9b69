// Tableaux over the sample book.
use crate::refuted::{Room, book_of, judged};
use books::book::EditableBook;
use books::sample::{ENTRIES, NODES, QUESTION, REFUTATION, WRONG_STEPS};
use judge::faults::RefuteFault::AtStep;
use judge::lists::Blank;
use judge::refute::refute;
use judge::step_fault::StepFault::{Full, Misfit, NeverEntered, Struck};
use judge::working::Split;
use logic::tableau::{Constraint, Form};
use std::test::Fail;

fn room(constraints: usize, splits: usize) -> Room {
    Room {
        constraints,
        edges: 0,
        splits,
    }
}

#[test]
fn four_entries_are_used(rt: HostRuntime) -> Result<(), Fail> {
    let heap = rt.alloc();
    let mut book = book_of(&rt, heap, &NODES, &ENTRIES)?;
    assert!(rt; book.enter(QUESTION).is_ok());
    assert_eq!(rt; judged(heap, &book, &REFUTATION, room(5, 1))?, Ok(4));
    assert_eq!(rt;
        judged(heap, &book, &REFUTATION, room(4, 1))?,
        Err(AtStep(6, Full))
    );
    assert_eq!(rt;
        judged(heap, &book, &REFUTATION, room(5, 0))?,
        Err(AtStep(2, Full))
    );
    assert!(rt; book.strike(3).is_ok());
    assert_eq!(rt;
        judged(heap, &book, &REFUTATION, room(5, 1))?,
        Err(AtStep(1, Struck))
    );
    Ok(())
}

#[test]
fn wrong_hand_in(rt: HostRuntime) -> Result<(), Fail> {
    let heap = rt.alloc();
    let book = book_of(&rt, heap, &NODES, &ENTRIES)?;
    assert_eq!(rt;
        judged(heap, &book, &WRONG_STEPS, room(7, 2))?,
        Err(AtStep(6, Misfit))
    );
    assert_eq!(rt;
        judged(heap, &book, &REFUTATION, room(5, 1))?,
        Err(AtStep(1, NeverEntered))
    );
    Ok(())
}

// The used entries; and that lists with old contents are blank after a call.
#[test]
fn the_set_and_the_lists(rt: HostRuntime) -> Result<(), Fail> {
    let heap = rt.alloc();
    let mut book = book_of(&rt, heap, &NODES, &ENTRIES)?;
    assert!(rt; book.enter(QUESTION).is_ok());
    let mut constraints = [Constraint {
        label: 7,
        form: Form::Bars,
        node: 7,
    }; 5];
    let mut splits = [Split::blank(); 1];
    let answer = refute(&book, &REFUTATION, &mut constraints, &mut [], &mut splits);
    for c in &constraints {
        assert_eq!(rt; c.label, 0);
        assert_eq!(rt; u8::from(c.form), 0);
        assert_eq!(rt; c.node, 0);
    }
    let used = answer.map_err(|_| Fail::new("refused"))?;
    assert_eq!(rt; used.count(), 4);
    // also past the last entry
    for i in 0..300u16 {
        assert_eq!(rt; used.has(i), i < 4);
    }
    Ok(())
}
