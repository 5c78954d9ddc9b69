// Orders by ranks.
use crate::answers::{is_alone, is_chain, is_pair};
use logic::refusal::BadLength;
use orders::order::Order;
use orders::ranks::Ranks;

// 32 ranks that rise by one.
const CHAIN: &[u8; 32] = b"@ABCDEFGHIJKLMNOPQRSTUVWXYZ[\\]^_";

#[test]
fn fresh_and_one_element(rt: HostRuntime) {
    let mut order = Ranks::new();
    is_alone(&rt, &order);
    assert_eq!(rt; order.fill(&[7]), Ok(()));
    is_alone(&rt, &order);
}

#[test]
fn lengths(rt: HostRuntime) {
    let mut order = Ranks::new();
    assert_eq!(rt; order.fill(&[]), Err(BadLength(0)));
    assert_eq!(rt; order.fill(&[0; 33]), Err(BadLength(33)));
    is_alone(&rt, &order);
    assert_eq!(rt; order.fill(&[0; 32]), Ok(()));
    assert_eq!(rt; order.size(), 32);
    assert_eq!(rt; order.better(31), 0);
}

#[test]
fn thirty_two_elements(rt: HostRuntime) {
    let mut order = Ranks::new();
    assert_eq!(rt; order.fill(CHAIN), Ok(()));
    is_chain(&rt, &order);
    assert_eq!(rt; order.fill(&[0]), Ok(()));
    is_alone(&rt, &order);
}

#[test]
fn lower_is_better(rt: HostRuntime) {
    let mut order = Ranks::new();
    assert_eq!(rt; order.fill(&[3, 1, 2]), Ok(()));
    assert_eq!(rt; order.better(0), 6);
    assert_eq!(rt; order.better(1), 0);
    assert_eq!(rt; order.better(2), 2);
    // equal ranks: neither is better
    assert_eq!(rt; order.fill(&[5, 5, 255]), Ok(()));
    assert_eq!(rt; order.better(0), 0);
    assert_eq!(rt; order.better(1), 0);
    assert_eq!(rt; order.better(2), 3);
}

#[test]
fn a_refused_fill_changes_nothing(rt: HostRuntime) {
    let mut order = Ranks::new();
    assert_eq!(rt; order.fill(&[255, 0]), Ok(()));
    assert_eq!(rt; order.fill(&[]), Err(BadLength(0)));
    assert_eq!(rt; order.fill(&[0; 33]), Err(BadLength(33)));
    is_pair(&rt, &order);
}
