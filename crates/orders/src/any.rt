// An order of either kind.
ghost use Rattle.orders.specs.Orders.{any_meaning, any_strict};

use crate::order::Order;
use crate::pairs::Pairs;
use crate::ranks::Ranks;

// An order by pairs or by ranks, for lists that contain both kinds.
#[derive(Drop)]
pub enum AnyOrder {
    Pairs(Pairs),
    Ranks(Ranks),
}

impl Order for AnyOrder {
    ghost meaning = { any_meaning };

    ghost strict = { any_strict };

    fn size(&self) -> u8 {
        match self {
            AnyOrder::Pairs(order) => order.size(),
            AnyOrder::Ranks(order) => order.size(),
        }
    }

    fn better(&self, x: u8) -> u32 {
        match self {
            AnyOrder::Pairs(order) => order.better(x),
            AnyOrder::Ranks(order) => order.better(x),
        }
    }
}
