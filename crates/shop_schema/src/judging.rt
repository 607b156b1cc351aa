// Whether tables have the form that the shop's statements need.
ghost use Rattle.std.specs.Prelude.{◌≡◌, ◌≢◌, ◌+◌, ◌<◌, None, IfErr, OnOk, length};
ghost use Rattle.std.specs.List.{find, list_any};
ghost use Rattle.std.specs.Option.{option_copied};
ghost use Rattle.sqlite_schema.specs.Names.{same_name};
ghost use Rattle.shop_schema.specs.Form.{needs_of, key_name};
ghost use Rattle.shop_schema.specs.Judging.{Refuses, table_in, is_taken, column_in, may_hold, column_wrong, needed_misfit};
ghost use Rattle.shop_schema.specs.Judging.{is_at, is_keyed, key_misfit, is_besides, is_among, must_be_given, besides_misfit};
ghost use Rattle.shop_schema.specs.Judging.{table_misfit, name_misfit, misfit_of, is_there, are_there};

use crate::form::{Holds, Need, ShopTable};
use crate::misfit::{Misfit, SchemaError, Wrong};
use sqlite::types::{Bytes, Value};
use sqlite_schema::names::same_name;
use sqlite_schema::schema::{Column, Kind, Schema, Table};
use sqlite_value::keys::Collation;
use std::alloc::Global;

// The table of this name.
fn table_in<'a>(schema: &'a Schema, name: &[u8]) -> Option<&'a Table>
    ensures { option_copied result ≡ table_in schema.now name.now }
{
    schema
        .tables
        .as_slice()
        .iter()
        .find(|t| same_name(t.name.as_slice(), name))
}

// Whether an index, a view or a table that can't be read has this name.
fn is_taken(schema: &Schema, name: &[u8]) -> bool
    ensures { result ≡ is_taken schema.now name.now }
{
    schema.index_named(name).is_some() || schema.view_named(name).is_some()
}

// The column of this name.
fn column_in<'a>(found: &'a Table, name: &[u8]) -> Option<&'a Column>
    ensures { option_copied result ≡ column_in found.now name.now }
{
    found
        .columns
        .as_slice()
        .iter()
        .find(|c| same_name(c.name.as_slice(), name))
}

// The error that names a column.
fn misfit(alloc: Global, table: ShopTable, column: &[u8], wrong: Wrong) -> SchemaError
    ensures { result ≢ SchemaError.Memory → result ≡ SchemaError.Misfit (record { table = table; column = column.now; wrong = wrong }) }
{
    match Bytes::from_slice(alloc, column) {
        Ok(column) => SchemaError::Misfit(Misfit {
            table,
            column,
            wrong,
        }),
        Err(_) => SchemaError::Memory,
    }
}

// Whether a column of this kind holds this.
fn may_hold(holds: Holds, kind: Kind) -> bool
    ensures { result ≡ may_hold holds kind }
{
    match holds {
        Holds::Words => kind == Kind::Text,
        Holds::Whole => kind == Kind::Integer,
        Holds::Bare => kind == Kind::Blob || kind == Kind::Any,
    }
}

// What is wrong with the column in which this is to be held.
fn column_wrong(column: Option<&Column>, holds: Holds) -> Option<Wrong>
    ensures { result ≡ column_wrong (option_copied column.entry) holds }
{
    let Some(column) = column else {
        return Some(Wrong::NoColumn);
    };
    if !may_hold(holds, column.kind) {
        return Some(Wrong::OtherType);
    }
    if holds == Holds::Words && column.collation != Collation::Binary {
        return Some(Wrong::OtherCollation);
    }
    None
}

// Looks at the columns that the shop needs, in their order.
fn judge_needed(alloc: Global, table: ShopTable, found: &Table) -> Result<(), SchemaError>
    ensures fits { OnOk result (needed_misfit table found.now (needs_of table) ≡ None) }
    ensures refuses { IfErr result (Refuses (needed_misfit table found.now (needs_of table))) }
{
    for need in table.needs() {
        let name = need.name.as_bytes();
        if let Some(wrong) = column_wrong(column_in(found, name), need.holds) {
            return Err(misfit(alloc, table, name, wrong));
        }
    }
    Ok(())
}

// Whether the column of this name has this place in a row.
fn is_at(found: &Table, place: usize, name: &[u8]) -> bool
    ensures { result ≡ is_at found.now place name.now }
{
    match found.column_named(name) {
        Some(at) => found.place_of(at) == place,
        None => false,
    }
}

// Whether the table has the shop's primary key.
fn is_keyed(table: ShopTable, found: &Table) -> bool
    ensures { result ≡ is_keyed table found.now found.now.primary }
{
    match (table, found.primary.as_slice()) {
        (ShopTable::Device | ShopTable::Raised, [serial]) => is_at(found, *serial, b"serial"),
        (ShopTable::TokenOrder, [id]) => is_at(found, *id, b"id"),
        (ShopTable::PriceChange, [serial, from]) => {
            is_at(found, *serial, b"serial") && is_at(found, *from, b"from_count")
        }
        _ => false,
    }
}

// The first column of the primary key.
fn key_name(table: ShopTable) -> &'static str
    ensures { result.now ≡ key_name table }
{
    match table {
        ShopTable::TokenOrder => "id",
        _ => "serial",
    }
}

// Looks at the primary key.
fn judge_key(alloc: Global, table: ShopTable, found: &Table) -> Result<(), SchemaError>
    ensures fits { OnOk result (key_misfit table found.now ≡ None) }
    ensures refuses { IfErr result (Refuses (key_misfit table found.now)) }
{
    if is_keyed(table, found) {
        return Ok(());
    }
    let name = key_name(table).as_bytes();
    Err(misfit(alloc, table, name, Wrong::OtherKey))
}

// Whether one of these columns has this name.
fn is_needed(needs: &[Need], name: &[u8]) -> bool
    ensures { result ≡ list_any (λ n. same_name name.now n.name.now) needs.now }
{
    needs.iter().any(|n| same_name(name, n.name.as_bytes()))
}

// Whether the shop's statements don't name this column.
fn is_besides(table: ShopTable, name: &[u8]) -> bool
    ensures { result ≡ is_besides table name.now }
{
    !is_needed(table.needs(), name)
}

// Whether a place is among these.
fn is_among(places: &[usize], place: usize) -> bool
    ensures { result ≡ is_among places.now place }
{
    places.iter().any(|p| *p == place)
}

// Whether no row can be added without a value for the column at this index.
fn must_be_given(found: &Table, at: usize, column: &Column) -> bool
    requires { at < length found.now.columns }
    ensures { result ≡ must_be_given found.now at column.now }
{
    let place = found.place_of(at);
    if is_among(found.computed.as_slice(), place) {
        !is_among(found.stamps.places.as_slice(), place)
    } else {
        column.not_null && matches!(column.default, Value::Null)
    }
}

// Looks at the columns that are none of the shop's, in the table's order.
fn judge_besides(alloc: Global, table: ShopTable, found: &Table) -> Result<(), SchemaError>
    ensures fits { OnOk result (besides_misfit table found.now 0 found.now.columns ≡ None) }
    ensures refuses { IfErr result (Refuses (besides_misfit table found.now 0 found.now.columns)) }
{
    for (at, column) in found.columns.as_slice().iter().enumerate() {
        let name = column.name.as_slice();
        if is_besides(table, name) && must_be_given(found, at, column) {
            return Err(misfit(alloc, table, name, Wrong::MustBeGiven));
        }
    }
    Ok(())
}

// Looks at a table that is there.
fn judge_table(alloc: Global, table: ShopTable, found: &Table) -> Result<(), SchemaError>
    ensures fits { OnOk result (table_misfit table found.now ≡ None) }
    ensures refuses { IfErr result (Refuses (table_misfit table found.now)) }
{
    judge_needed(alloc, table, found)?;
    judge_key(alloc, table, found)?;
    judge_besides(alloc, table, found)
}

// Looks at what has the name of a table. None at all is right: the table can be made.
#[tactic(auto, unfolding(crate::specs::Judging::name_misfit))]
fn judge_name(alloc: Global, table: ShopTable, schema: &Schema) -> Result<(), SchemaError>
    ensures fits { OnOk result (name_misfit schema.now table ≡ None) }
    ensures refuses { IfErr result (Refuses (name_misfit schema.now table)) }
{
    let name = table.name().as_bytes();
    match table_in(schema, name) {
        Some(found) => judge_table(alloc, table, found),
        None if is_taken(schema, name) => Err(misfit(alloc, table, &[], Wrong::NoTable)),
        None => Ok(()),
    }
}

// Looks at the shop's tables. One that is absent is right.
#[tactic(auto, unfolding(crate::specs::Judging::misfit_of))]
pub(crate) fn judge(alloc: Global, schema: &Schema) -> Result<(), SchemaError>
    ensures fits { OnOk result (misfit_of schema.now ≡ None) }
    ensures refuses { IfErr result (Refuses (misfit_of schema.now)) }
{
    judge_name(alloc, ShopTable::Device, schema)?;
    judge_name(alloc, ShopTable::TokenOrder, schema)?;
    judge_name(alloc, ShopTable::Raised, schema)?;
    judge_name(alloc, ShopTable::PriceChange, schema)
}

// Whether the table is there.
pub(crate) fn is_there(schema: &Schema, table: ShopTable) -> bool
    ensures { result ≡ is_there schema.now table }
{
    table_in(schema, table.name().as_bytes()).is_some()
}

// Whether all of the shop's tables are there.
#[tactic(auto, unfolding(crate::specs::Judging::are_there))]
pub(crate) fn are_there(schema: &Schema) -> bool
    ensures { result ≡ are_there schema.now }
{
    is_there(schema, ShopTable::Device)
        && is_there(schema, ShopTable::TokenOrder)
        && is_there(schema, ShopTable::Raised)
        && is_there(schema, ShopTable::PriceChange)
}
