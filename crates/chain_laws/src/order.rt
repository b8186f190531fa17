//! Laws of moves into a given order.

ghost use Rattle.chain_laws.specs.Orders.{OrderAgrees, OrderPutsInOrder, OwnOrderStays};

/// Such moves keep links well linked.
pub fn order_agrees()
    ensures { OrderAgrees }
{}

/// The links follow the first in list order.
pub fn order_puts_in_order()
    ensures { OrderPutsInOrder }
{}

/// A chain put in its own order changes nothing.
pub fn own_order_stays()
    ensures { OwnOrderStays }
{}
