// Orders by pairs.
use crate::answers::{is_alone, is_chain, is_pair};
use orders::faults::PairsFault::{BadLength, Unlawful};
use orders::order::Order;
use orders::pairs::Pairs;

// Row x contains all elements below x.
const CHAIN: &[u8; 128] = b"\
    \x00\x00\x00\x00\x01\x00\x00\x00\x03\x00\x00\x00\x07\x00\x00\x00\
    \x0f\x00\x00\x00\x1f\x00\x00\x00\x3f\x00\x00\x00\x7f\x00\x00\x00\
    \xff\x00\x00\x00\xff\x01\x00\x00\xff\x03\x00\x00\xff\x07\x00\x00\
    \xff\x0f\x00\x00\xff\x1f\x00\x00\xff\x3f\x00\x00\xff\x7f\x00\x00\
    \xff\xff\x00\x00\xff\xff\x01\x00\xff\xff\x03\x00\xff\xff\x07\x00\
    \xff\xff\x0f\x00\xff\xff\x1f\x00\xff\xff\x3f\x00\xff\xff\x7f\x00\
    \xff\xff\xff\x00\xff\xff\xff\x01\xff\xff\xff\x03\xff\xff\xff\x07\
    \xff\xff\xff\x0f\xff\xff\xff\x1f\xff\xff\xff\x3f\xff\xff\xff\x7f\
    ";

const PAIR: [u8; 8] = [2, 0, 0, 0, 0, 0, 0, 0];

#[test]
fn fresh_and_one_element(rt: HostRuntime) {
    let mut order = Pairs::new();
    is_alone(&rt, &order);
    assert_eq!(rt; order.fill(&[0; 4]), Ok(()));
    is_alone(&rt, &order);
}

#[test]
fn lengths(rt: HostRuntime) {
    let mut order = Pairs::new();
    assert_eq!(rt; order.fill(&[]), Err(BadLength(0)));
    assert_eq!(rt; order.fill(&[0; 3]), Err(BadLength(3)));
    assert_eq!(rt; order.fill(&[0; 126]), Err(BadLength(126)));
    assert_eq!(rt; order.fill(&[0; 132]), Err(BadLength(132)));
    assert_eq!(rt; order.size(), 1);
    assert_eq!(rt; order.fill(&[0; 128]), Ok(()));
    assert_eq!(rt; order.size(), 32);
    assert_eq!(rt; order.fill(&[0; 4]), Ok(()));
    assert_eq!(rt; order.size(), 1);
}

#[test]
fn thirty_two_elements(rt: HostRuntime) {
    let mut order = Pairs::new();
    assert_eq!(rt; order.fill(CHAIN), Ok(()));
    is_chain(&rt, &order);
    // the last row contains its own element
    let mut bytes = *CHAIN;
    bytes[127] = 255;
    assert_eq!(rt; order.fill(&bytes), Err(Unlawful(31)));
    is_chain(&rt, &order);
    // a smaller order leaves nothing of a larger one
    assert_eq!(rt; order.fill(&[0; 4]), Ok(()));
    is_alone(&rt, &order);
}

#[test]
fn two_elements(rt: HostRuntime) {
    let mut order = Pairs::new();
    assert_eq!(rt; order.fill(&PAIR), Ok(()));
    is_pair(&rt, &order);
    // each better than the other
    assert_eq!(rt; order.fill(&[2, 0, 0, 0, 1, 0, 0, 0]), Err(Unlawful(0)));
}

#[test]
fn chains_of_three(rt: HostRuntime) {
    let mut order = Pairs::new();
    assert_eq!(rt; order.fill(&[0, 0, 0, 0, 1, 0, 0, 0, 3, 0, 0, 0]), Ok(()));
    assert_eq!(rt; order.better(2), 3);
    assert_eq!(rt; order.fill(&[6, 0, 0, 0, 4, 0, 0, 0, 0, 0, 0, 0]), Ok(()));
    assert_eq!(rt; order.better(0), 6);
    // 0 is better than 1, and 1 than 2, but not 0 than 2
    assert_eq!(rt;
        order.fill(&[0, 0, 0, 0, 1, 0, 0, 0, 2, 0, 0, 0]),
        Err(Unlawful(2))
    );
    // a ring: no set is closed, and the lowest element is reported
    assert_eq!(rt;
        order.fill(&[2, 0, 0, 0, 4, 0, 0, 0, 1, 0, 0, 0]),
        Err(Unlawful(0))
    );
}

#[test]
fn unlawful_rows(rt: HostRuntime) {
    let mut order = Pairs::new();
    // itself
    assert_eq!(rt; order.fill(&[1, 0, 0, 0]), Err(Unlawful(0)));
    assert_eq!(rt; order.fill(&[0, 0, 0, 0, 2, 0, 0, 0]), Err(Unlawful(1)));
    // past the size
    assert_eq!(rt; order.fill(&[2, 0, 0, 0]), Err(Unlawful(0)));
    assert_eq!(rt; order.fill(&[0, 0, 0, 128]), Err(Unlawful(0)));
    assert_eq!(rt; order.fill(&[0, 0, 0, 0, 4, 0, 0, 0]), Err(Unlawful(1)));
    is_alone(&rt, &order);
}

#[test]
fn a_refused_fill_changes_nothing(rt: HostRuntime) {
    let mut order = Pairs::new();
    assert_eq!(rt; order.fill(&PAIR), Ok(()));
    assert_eq!(rt; order.fill(&[0; 3]), Err(BadLength(3)));
    is_pair(&rt, &order);
    assert_eq!(rt;
        order.fill(&[0, 0, 0, 0, 2, 0, 0, 0, 0, 0, 0, 0]),
        Err(Unlawful(1))
    );
    is_pair(&rt, &order);
}
