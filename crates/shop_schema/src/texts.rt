// The texts by which the tables are made, letter for letter as SQLite itself keeps them: the first two words with one blank
// behind each, the name, and nothing before or after. With other words between, SQLite's `ALTER TABLE` puts a new column at a
// wrong place.
ghost use Rattle.std.specs.Prelude.{◌≡◌, IsTrue, length, take};
ghost use Rattle.shop_schema.specs.Texts.{head_of, old_text};

use crate::form::ShopTable;

const DEVICE: &str = "CREATE TABLE device (
  serial TEXT PRIMARY KEY NOT NULL,
  secret BLOB NOT NULL,
  start INTEGER NOT NULL,
  divider INTEGER NOT NULL,
  form INTEGER NOT NULL,
  price INTEGER NOT NULL,
  total INTEGER NOT NULL,
  paid INTEGER NOT NULL,
  rest INTEGER NOT NULL,
  last INTEGER NOT NULL,
  closed INTEGER NOT NULL
)";

const TOKEN_ORDER: &str = "CREATE TABLE token_order (
  id TEXT PRIMARY KEY NOT NULL,
  serial TEXT NOT NULL REFERENCES device (serial),
  ask INTEGER NOT NULL,
  asked INTEGER NOT NULL,
  kind INTEGER NOT NULL,
  count INTEGER NOT NULL,
  value INTEGER NOT NULL,
  token INTEGER NOT NULL
)";

const RAISED: &str = "CREATE TABLE raised (
  serial TEXT PRIMARY KEY NOT NULL REFERENCES device (serial)
)";

const PRICE_CHANGE: &str = "CREATE TABLE price_change (
  serial TEXT NOT NULL REFERENCES device (serial),
  from_count INTEGER NOT NULL,
  price INTEGER NOT NULL,
  PRIMARY KEY (serial, from_count)
)";

// The name of the index by which the orders of a device are found, and its text.
pub(crate) const BY_DEVICE: &str = "token_order_by_device";

pub(crate) const INDEX: &str =
    "CREATE INDEX token_order_by_device ON token_order (serial, count, id)";

// Takes the rows out of the tables, and the tables away.
pub(crate) const TAKE_OUT: &str = "
CREATE TABLE kept_price_change (serial, from_count, price);
INSERT INTO kept_price_change SELECT serial, from_count, price FROM price_change;
DROP TABLE price_change;
CREATE TABLE kept_raised (serial);
INSERT INTO kept_raised SELECT serial FROM raised;
DROP TABLE raised;
CREATE TABLE kept_token_order (id, serial, ask, asked, kind, count, value, token);
INSERT INTO kept_token_order SELECT id, serial, ask, asked, kind, count, value, token FROM token_order;
DROP TABLE token_order;
CREATE TABLE kept_device (serial, secret, start, divider, form, price, total, paid, rest, last, closed);
INSERT INTO kept_device SELECT serial, secret, start, divider, form, price, total, paid, rest, last, closed FROM device;
DROP TABLE device;
";

// Puts the rows that were taken out back into the tables.
pub(crate) const PUT_BACK: &str = "
INSERT INTO device (serial, secret, start, divider, form, price, total, paid, rest, last, closed)
SELECT serial, secret, start, divider, form, price, total, paid, rest, last, closed FROM kept_device;
DROP TABLE kept_device;
INSERT INTO token_order (id, serial, ask, asked, kind, count, value, token)
SELECT id, serial, ask, asked, kind, count, value, token FROM kept_token_order;
DROP TABLE kept_token_order;
INSERT INTO raised (serial) SELECT serial FROM kept_raised;
DROP TABLE kept_raised;
INSERT INTO price_change (serial, from_count, price) SELECT serial, from_count, price FROM kept_price_change;
DROP TABLE kept_price_change;
";

// Whether an object has one of the names that the rows go by meanwhile.
pub(crate) fn is_kept_name(name: &[u8]) -> bool {
    let names: [&[u8]; 4] = [
        b"kept_device",
        b"kept_token_order",
        b"kept_raised",
        b"kept_price_change",
    ];
    names.iter().any(|kept| name.eq_ignore_ascii_case(kept))
}

impl ShopTable {
    // All of them, each before those that refer to it.
    pub(crate) const ALL: [ShopTable; 4] = [
        ShopTable::Device,
        ShopTable::TokenOrder,
        ShopTable::Raised,
        ShopTable::PriceChange,
    ];

    // The text by which the table is made.
    pub(crate) fn text(self) -> &'static str
        ensures { take (length (head_of self)) result.now ≡ head_of self }
    {
        match self {
            ShopTable::Device => DEVICE,
            ShopTable::TokenOrder => TOKEN_ORDER,
            ShopTable::Raised => RAISED,
            ShopTable::PriceChange => PRICE_CHANGE,
        }
    }
}

// Whether these bytes are those.
fn is_same(a: &[u8], b: &[u8]) -> bool
    ensures { IsTrue result → a.now ≡ b.now }
{
    a == b
}

// Whether this is the text by which an older program made what has this one now.
pub(crate) fn is_old(sql: &[u8], plain: &[u8]) -> bool
    ensures { IsTrue result → sql.now ≡ old_text plain.now }
{
    if plain.len() < 13 || sql.len() < 27 {
        return false;
    }
    if !is_same(&sql[..13], &plain[..13]) || !is_same(&sql[13..27], b"IF NOT EXISTS ") {
        return false;
    }
    is_same(&sql[27..], &plain[13..])
}
