//! The laws of offers. Each is the contract of a function that does nothing.
ghost use Rattle.alb_reduce.specs.Laws.{OffersAddUp, OrderIsFree};

/// Rows that span what was offered before an offer span, after it, what was offered so far.
pub fn offers_add_up()
    ensures { OffersAddUp }
{}

/// Offered rows have one reduced form, whatever their order.
pub fn order_is_free()
    ensures { OrderIsFree }
{}
