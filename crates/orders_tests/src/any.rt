// Orders of either kind in one list.
use crate::answers::is_pair;
use orders::any::AnyOrder;
use orders::order::Order;
use orders::pairs::Pairs;
use orders::ranks::Ranks;

#[test]
fn both_kinds(rt: HostRuntime) {
    let mut pairs = Pairs::new();
    let mut ranks = Ranks::new();
    assert_eq!(rt; pairs.fill(&[2, 0, 0, 0, 0, 0, 0, 0]), Ok(()));
    assert_eq!(rt; ranks.fill(&[1, 0, 2]), Ok(()));
    is_pair(&rt, &AnyOrder::Pairs(pairs));
    let order = AnyOrder::Ranks(ranks);
    assert_eq!(rt; order.size(), 3);
    assert_eq!(rt; order.better(0), 2);
    assert_eq!(rt; order.better(1), 0);
    assert_eq!(rt; order.better(2), 3);
    assert_eq!(rt; order.better(3), 0);
}
