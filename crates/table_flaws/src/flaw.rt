// What may be wrong in a shop's tables.
use ledger_spec::Name;

/// One thing that is wrong in a shop's tables, with the id of its order or the serial of its device.
#[derive(Clone, Copy, Debug)]
pub enum Flaw {
    /// The order with this id has a count that isn't below that of the order that was added for its device after it,
    /// or, where it is the newest one, isn't at most the row's last count. So one of two orders of one count has it,
    /// and so have orders that stand in another order than they were issued in.
    Count(Name),
    /// The count of the order with this id is odd, and it is one for an add token, or it is even, and the order is
    /// for a token of another kind. A device takes the token as one of the other sort, or not at all.
    Parity(Name),
    /// The token of the order with this id isn't that of its count and value on the chain of its row. A device takes
    /// it for something else, or not at all.
    Token(Name),
    /// The token of the count and the value of the order with this id is that of another count too, from 0 to the
    /// greater of 4,095 and its own. A device may take it for that one.
    Shared(Name),
    /// The kind or the value of the order with this id isn't what was asked comes to after the device's older orders,
    /// at the price of its count; or it is an add token of more than 995 units.
    Booked(Name),
    /// A change of the price of the device with this serial holds from a count on that is above the row's last one.
    /// It stands once for each such change.
    Price(Name),
    /// The sum paid, the rest, or whether the row of the device with this serial is closed isn't what its orders come
    /// to.
    Account(Name),
}
