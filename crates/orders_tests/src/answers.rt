// What an order is.
use orders::masks::all_below;
use orders::order::Order;
use std::process::Abort;

// The order has one element.
pub(crate) fn is_alone<O: Order>(rt: &impl Abort, order: &O) {
    assert_eq!(rt; order.size(), 1);
    for x in 0..=255u8 {
        assert_eq!(rt; order.better(x), 0);
    }
}

// The order has 32 elements, and each is worse than all with a lower number.
pub(crate) fn is_chain<O: Order>(rt: &impl Abort, order: &O) {
    assert_eq!(rt; order.size(), 32);
    for x in 0..32u8 {
        assert_eq!(rt; order.better(x), all_below(x));
    }
    assert_eq!(rt; order.better(31), 0x7fff_ffff);
    assert_eq!(rt; order.better(32), 0);
    assert_eq!(rt; order.better(255), 0);
}

// The order has two elements, and 1 is better than 0.
pub(crate) fn is_pair<O: Order>(rt: &impl Abort, order: &O) {
    assert_eq!(rt; order.size(), 2);
    assert_eq!(rt; order.better(0), 2);
    assert_eq!(rt; order.better(1), 0);
    assert_eq!(rt; order.better(2), 0);
}
