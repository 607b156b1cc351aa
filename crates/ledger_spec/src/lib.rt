// The plain types of the shop's ledger and, in specs/, the definitions that the contracts of the ledger's crates cite.
// Money is counted in the smallest coin, time in units of which the device knows how many make a day.
#![tactic(auto)]

mod name;

pub use name::Name;
use paygo_spec::Form;

/// What a token does on the device that takes it.
#[derive(Clone, Copy, Debug, PartialEq, Eq)]
pub enum Kind {
    /// It adds so many units to the time left. Its count is even, and those of the other kinds are odd.
    Add,
    /// It sets the time left to so many units.
    Set,
    /// It frees the device: from then on it works without time.
    Disable,
    /// It only brings the device's last count up to date, where the device fell behind.
    Sync,
}

/// What a token is asked for.
#[derive(Clone, Copy, Debug, PartialEq, Eq)]
pub enum Ask {
    /// A payment of so much, from 1 to 1,000,000,000,000.
    Pay(u64),
    /// The time left is to be so many units, from 0 to 995.
    Set(u16),
    /// The device is to be free.
    Disable,
    /// The device's last count is to be brought up to date.
    Sync,
}

/// What the shop keeps of a device that it sold: what it was enrolled with, which never changes, and how far its customer
/// has paid.
#[derive(Clone, Copy, Debug)]
pub struct Row {
    /// The device's serial, of at most 16 bytes. No other row has it.
    pub serial: Name,
    /// The secret key of the device's tokens. It is never shown.
    pub key: [u8; 16],
    /// The starting code of the device's tokens, below 1,000,000,000.
    pub start: u32,
    /// How many units of time make a day: from 1 to 255, a divisor of 86,400.
    pub divider: u8,
    /// The form in which the customer types tokens.
    pub form: Form,
    /// The price of one unit as the device was enrolled, from 1 to 1,000,000,000. A `PriceChange` says what it is later.
    pub price: u64,
    /// The price of the device itself, from 1 to 1,000,000,000,000: who has paid that much owns it.
    pub total: u64,
    /// What was paid so far: at most 1,000,000,000,000 for each count up to the last one.
    pub paid: u64,
    /// What is left over of the payments, since it bought no whole unit: below 1,000,000,000. It counts for the next one.
    pub rest: u64,
    /// The greatest count of a token that was issued for the device, or 0: at most `limit`.
    pub last: u16,
    /// The greatest count that may be issued for the device: 4,095, or 16,383 once it was raised.
    pub limit: u16,
    /// Whether the device was freed, so that no payment is taken for it. A set token opens the row again.
    pub closed: bool,
}

/// A token that was issued, and what it was issued for. It never changes.
#[derive(Clone, Copy, Debug)]
pub struct Order {
    /// The name under which it was asked for, as the number of a receipt. No other order has it.
    pub id: Name,
    /// The serial of the device, of at most 16 bytes.
    pub serial: Name,
    /// What was asked.
    pub ask: Ask,
    /// What the token does on the device.
    pub kind: Kind,
    /// The token's count, from 1 to 16,383. No other order of the device has it.
    pub count: u16,
    /// The token's value, from 0 to 999: the units of an add or a set token, 998 to disable and 999 to sync.
    pub value: u16,
    /// The token, below 1,000,000,000. The customer types it in the form of the device.
    pub token: u32,
}

/// A change of the price of a device's unit: it holds for tokens whose count is above `from`, until the next change.
#[derive(Clone, Copy, Debug)]
pub struct PriceChange {
    /// The serial of the device.
    pub serial: Name,
    /// The device's last count when the change was made, from 0 to 16,383. No other change of the device has it.
    pub from: u16,
    /// The price of one unit, from 1 to 1,000,000,000.
    pub price: u64,
}

/// What a device is enrolled with. Each field is that of the `Row` that it gets.
#[derive(Clone, Copy, Debug)]
pub struct Enrol {
    /// The device's serial, of at most 16 bytes.
    pub serial: Name,
    /// The secret key of the device's tokens.
    pub key: [u8; 16],
    /// The starting code of the device's tokens, below 1,000,000,000.
    pub start: u32,
    /// How many units of time make a day: from 1 to 255, a divisor of 86,400.
    pub divider: u8,
    /// The form in which the customer types tokens.
    pub form: Form,
    /// The price of one unit, from 1 to 1,000,000,000.
    pub price: u64,
    /// The price of the device itself, from 1 to 1,000,000,000,000.
    pub total: u64,
}

/// What the shop may ask of the ledger.
///
/// The four commands with an id issue a token. One whose id has an order of the same serial and for the same is answered
/// by that order, and nothing is issued: so a command may be given again until it is answered.
#[derive(Clone, Copy, Debug)]
pub enum Command {
    /// A device is sold: it gets a row. Where the serial has a row with the same six values, that is answered as it is now.
    Enroll(Enrol),
    /// Money is paid for a device, from 1 to 1,000,000,000,000. Below its total it buys units at the price, and what is
    /// left over is kept for the next payment; a payment that reaches the total frees the device and closes its row.
    Pay { id: Name, serial: Name, amount: u64 },
    /// The device's time left is to be so many units, from 0 to 995. Its row is open then.
    Set { id: Name, serial: Name, units: u16 },
    /// The device is to be free. Its row is closed then.
    Disable { id: Name, serial: Name },
    /// The device fell behind, and its last count is to be brought up to date.
    Sync { id: Name, serial: Name },
    /// The order of an id is to be told.
    Order { id: Name },
    /// The row of a serial is to be told.
    Show { serial: Name },
    /// The limit of a device's counts is to be raised from 4,095 to 16,383. A raised row is told as it is.
    Raise { serial: Name },
    /// The price of a device's unit is to be another, from 1 to 1,000,000,000, for tokens whose count is above `from`,
    /// the last one so far, at most 16,383. A change that is kept with that price is told again.
    Price { serial: Name, from: u16, price: u64 },
    /// What a payment would be sold now is to be told, from 1 to 1,000,000,000,000. Nothing changes.
    Quote { serial: Name, amount: u64 },
    /// The last count of a device's row is to be lifted to a count, from 0 to 16,383, so that none up to it is ever issued
    /// any more: that of a shop that had to go back to an older copy of its tables. A row whose last count is that one or a
    /// greater one is told as it is.
    Skip { serial: Name, to: u16 },
}

/// What a line of the ledger is for, as its member `do` names it.
#[derive(Clone, Copy, Debug, PartialEq, Eq)]
pub enum Verb {
    /// `enroll`: a device is sold.
    Enroll,
    /// `pay`: a customer pays.
    Pay,
    /// `set`: a device is to have so many units left.
    Set,
    /// `disable`: a device is to be free.
    Disable,
    /// `sync`: a device's last count is to move.
    Sync,
    /// `order`: an order is to be told.
    Order,
    /// `show`: a row is to be told.
    Show,
    /// `raise`: the greatest count of a device is to be raised.
    Raise,
    /// `price`: the price of one unit is to change.
    Price,
    /// `quote`: what a payment would be sold is to be told.
    Quote,
    /// `skip`: the last count of a device is to be lifted.
    Skip,
}

/// What the ledger answers to a command. A refused command changes nothing. Where several refusals apply, the first of
/// `NoDevice`, `IdUsed`, `SerialUsed`, `Closed`, `Small`, `Large`, `NoCount`, `NoOrder`, `PriceUsed`, `Stale` and `Beyond`
/// comes.
#[derive(Clone, Copy, Debug)]
pub enum Answer {
    /// The order that was issued, or that is kept under the id, and the form of its device.
    Order(Order, Form),
    /// The row, as it is now.
    Row(Row),
    /// Refused: the serial that a command but `Enroll` and `Order` names has no row.
    NoDevice,
    /// Refused: the id has an order, which is told with the form of its device, and it was for another serial, another
    /// command or another number.
    IdUsed(Order, Form),
    /// Refused: the serial that is enrolled has a row, which is told, with another key, starting code, divider, form, price
    /// or total.
    SerialUsed(Row),
    /// Refused: the row is closed, so no payment is taken. What was paid.
    Closed { paid: u64 },
    /// Refused: the payment stays below the total, and the money at hand, with what was left over, doesn't buy one unit at
    /// the price.
    Small { have: u64, price: u64 },
    /// Refused: the payment stays below the total, and buys more than 995 units. How many.
    Large { units: u64 },
    /// Refused: of the counts above the last one and up to the limit, of the kind's parity, none may be issued: each one's
    /// token is also that of another count, up to 4,095 or up to its own. The last count.
    NoCount { last: u16 },
    /// Refused: the id has no order.
    NoOrder,
    /// The change of the price, which was made now or before.
    Price(PriceChange),
    /// Refused: the price was changed from that count on, to another price, which is told.
    PriceUsed { price: u64 },
    /// Refused: the price isn't changed from that count on, which isn't the last count of the row. The last count.
    Stale { last: u16 },
    /// What the payment would be sold, if it were made under a new id now.
    Quote(Quote),
    /// Refused: the last count can't be lifted above the row's limit, which is told.
    Beyond { limit: u16 },
}

/// What a payment would be sold.
#[derive(Clone, Copy, Debug)]
pub struct Quote {
    /// The serial of the device.
    pub serial: Name,
    /// What the token would do on the device.
    pub kind: Kind,
    /// Its count, from 1 to 16,383.
    pub count: u16,
    /// Its value, from 0 to 999.
    pub value: u16,
    /// What would be left over of the payments.
    pub rest: u64,
    /// Whether a device that has the row's last count, and its limit, has the count in reach. One that doesn't finds the token
    /// only once it has moved on, as by a sync token.
    pub near: bool,
}

/// What is issued for what is asked, where it isn't refused.
#[derive(Clone, Copy, Debug)]
pub struct Issue {
    /// What the token does.
    pub kind: Kind,
    /// The token's value, from 0 to 999.
    pub value: u16,
    /// The row as it then is, but for its last count, which is going to be the token's.
    pub row: Row,
}

/// Why a call of a keeper gave nothing.
#[derive(Clone, Copy, Debug, PartialEq, Eq)]
pub enum KeeperFault {
    /// The keeper failed, and counted it. A write that failed may have left its whole change.
    Failed,
    /// There was no memory. Nothing changed.
    Memory,
}

/// Why a line of the ledger has no command.
#[derive(Clone, Copy, Debug, PartialEq, Eq)]
pub enum TextFault {
    /// The line has no JSON value. So is answered a line that isn't UTF-8 or isn't JSON, and JSON of which there is no
    /// reading: it nests deeper than 127, a number in it is too great for a float, or a text has half of a surrogate pair.
    Json,
    /// The line has a JSON value, and breaks this rule, the least of those that it breaks: from 1 to 13.
    Shape { rule: u8 },
    /// There was no memory.
    Memory,
}

/// Why a command wasn't answered. It may be given again.
#[derive(Clone, Copy, Debug, PartialEq, Eq)]
pub enum LedgerFault {
    /// The keeper failed, and counted it: the tables are as before, or have the whole change.
    Keeper,
    /// There was no memory: the tables are as before.
    Memory,
}
