// The statements, each a fixed text with its parameters by place.

// The row of a serial.
pub(crate) const DEVICE: &str = "
SELECT d.serial, d.secret, d.start, d.divider, d.form, d.price, d.total, d.paid, d.rest, d.last, d.closed,
  EXISTS (SELECT 1 FROM raised AS r WHERE r.serial = d.serial)
FROM device AS d WHERE d.serial = ?1
";

// All rows, by serial.
pub(crate) const DEVICES: &str = "
SELECT d.serial, d.secret, d.start, d.divider, d.form, d.price, d.total, d.paid, d.rest, d.last, d.closed,
  EXISTS (SELECT 1 FROM raised AS r WHERE r.serial = d.serial)
FROM device AS d ORDER BY d.serial
";

// The order with an id, and behind its columns those of its row, which are empty where it has none.
pub(crate) const ORDER: &str = "
SELECT o.id, o.serial, o.ask, o.asked, o.kind, o.count, o.value, o.token,
  d.serial, d.secret, d.start, d.divider, d.form, d.price, d.total, d.paid, d.rest, d.last, d.closed,
  EXISTS (SELECT 1 FROM raised AS r WHERE r.serial = o.serial)
FROM token_order AS o LEFT JOIN device AS d ON d.serial = o.serial WHERE o.id = ?1
";

// The orders of a serial, by count and then by id.
pub(crate) const ORDERS: &str = "
SELECT id, serial, ask, asked, kind, count, value, token
FROM token_order WHERE serial = ?1 ORDER BY count, id
";

// The orders of a serial, the newest first: a new order has the greatest `rowid`.
pub(crate) const ORDERS_BACK: &str = "
SELECT id, serial, ask, asked, kind, count, value, token
FROM token_order WHERE serial = ?1 ORDER BY rowid DESC
";

// The changes of a serial's price, by the count from which they hold.
pub(crate) const PRICES: &str = "
SELECT serial, from_count, price FROM price_change WHERE serial = ?1 ORDER BY from_count
";

// A new row.
pub(crate) const ADD_DEVICE: &str = "
INSERT INTO device (serial, secret, start, divider, form, price, total, paid, rest, last, closed)
VALUES (?1, ?2, ?3, ?4, ?5, ?6, ?7, ?8, ?9, ?10, ?11)
";

// A row in the place of that of its serial, where it has the same limit.
pub(crate) const PUT_DEVICE: &str = "
UPDATE device SET secret = ?2, start = ?3, divider = ?4, form = ?5, price = ?6, total = ?7, paid = ?8, rest = ?9,
  last = ?10, closed = ?11
WHERE serial = ?1 AND EXISTS (SELECT 1 FROM raised AS r WHERE r.serial = ?1) = ?12
";

// A new order.
pub(crate) const ADD_ORDER: &str = "
INSERT INTO token_order (id, serial, ask, asked, kind, count, value, token)
VALUES (?1, ?2, ?3, ?4, ?5, ?6, ?7, ?8)
";

// The limit of a serial's row is raised.
pub(crate) const RAISE: &str = "INSERT INTO raised (serial) VALUES (?1)";

// The last count of a serial's row is lifted, where it is lower.
pub(crate) const SKIP: &str = "UPDATE device SET last = ?2 WHERE serial = ?1 AND last < ?2";

// A new change of a price.
pub(crate) const ADD_PRICE: &str = "
INSERT INTO price_change (serial, from_count, price) VALUES (?1, ?2, ?3)
";
