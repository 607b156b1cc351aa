// The texts that a database keeps of its tables and indexes.
use crate::form::ShopTable;
use crate::texts::{BY_DEVICE, INDEX, is_kept_name, is_old};
use sqlite::types::ValueRef;
use sqlite::{Alter, Connection, Error, Row};
use sqlite_schema::names::same_name;
use sqlite_schema::schema::{Schema, Table};

const LISTED: &str = "SELECT name, tbl_name, sql FROM sqlite_schema WHERE sql IS NOT NULL";

// How a text that a database keeps stands to the shop.
#[derive(Clone, Copy, Debug, PartialEq, Eq)]
enum Standing {
    // It belongs to no table of the shop.
    Foreign,
    // It is one that this program writes.
    Plain,
    // It is one that an older program wrote.
    Old,
    // It belongs to a table of the shop, and is another.
    Other,
}

// The table of the shop that has this name.
fn shop_table(name: &[u8]) -> Option<ShopTable> {
    ShopTable::ALL
        .iter()
        .copied()
        .find(|table| same_name(table.name().as_bytes(), name))
}

// The text by which this program makes the table or the index of this name.
fn plain_text(name: &[u8]) -> Option<&'static str> {
    if same_name(name, BY_DEVICE.as_bytes()) {
        return Some(INDEX);
    }
    match shop_table(name) {
        Some(table) => Some(table.text()),
        None => None,
    }
}

// How the text of the object of this name stands, which belongs to the table of that one.
fn standing_of(name: &[u8], table: &[u8], sql: &[u8]) -> Standing {
    if is_kept_name(name) {
        return Standing::Other;
    }
    if shop_table(table).is_none() {
        return Standing::Foreign;
    }
    match plain_text(name) {
        Some(plain) if sql == plain.as_bytes() => Standing::Plain,
        Some(plain) if is_old(sql, plain.as_bytes()) => Standing::Old,
        _ => Standing::Other,
    }
}

// The bytes of a text in a column, and none of anything else.
fn text_at(row: &Row, at: usize) -> &[u8] {
    match row.get_ref(at) {
        Ok(ValueRef::Text(bytes)) => bytes,
        _ => &[],
    }
}

// Whether one of these texts is an older program's, and all that belong to the shop's tables are that or this program's.
fn are_old(rows: &[Row]) -> bool {
    let mut old = false;
    for row in rows {
        match standing_of(text_at(row, 0), text_at(row, 1), text_at(row, 2)) {
            Standing::Foreign | Standing::Plain => {}
            Standing::Old => old = true,
            Standing::Other => return false,
        }
    }
    old
}

// Whether a table has a foreign key to one of the shop's.
fn refers(table: &Table) -> bool {
    table.references.as_slice().iter().any(|reference| shop_table(
        reference.parent.as_slice(),
    ).is_some())
}

// Whether a table that is none of the shop's has a foreign key to one of them.
fn is_referred(schema: &Schema) -> bool {
    schema.tables.as_slice().iter().any(|table| shop_table(table.name.as_slice()).is_none()
        && refers(table))
}

// Whether an older program's texts are to be put right: nothing else may hang on the tables, which are made anew for that.
pub(crate) fn is_to_put_right<S: Alter>(conn: &mut Connection<S>) -> Result<bool, Error> {
    let rows = conn.query_all(LISTED, &[])?;
    Ok(are_old(rows.as_slice()) && !is_referred(conn.schema()))
}
