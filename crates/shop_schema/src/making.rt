// The tables are looked at, and those that are absent are made.
ghost use Rattle.std.specs.Prelude.{◌≡◌, true, None, OnOk, IfErr, IfSome, IsErr, ◌⊎◌};
ghost use Rattle.sqlite.specs.Held.{state};
ghost use Rattle.shop_schema.specs.Judging.{Refuses, misfit_of, are_there};

use crate::form::ShopTable;
use crate::judging::{are_there, is_there, judge};
use crate::listing::is_to_put_right;
use crate::misfit::SchemaError;
use crate::texts::{BY_DEVICE, INDEX, PUT_BACK, TAKE_OUT};
use sqlite::{Alter, Connection, Error, ErrorCode, Transaction};
use sqlite_schema::schema::Schema;
use std::alloc::{AllocError, Global};

/// Makes the shop's tables that are absent, and puts the texts right by which an older program made them, all in one transaction.
/// Tables that are there must have the form that the shop's statements need.
///
/// # Errors
///
/// `Misfit` where one has another form: it names the first table and column, and nothing was written. `Failed` where a statement
/// failed, and the tables are as they were; `Memory` where there is none.
pub fn make<S: Alter>(alloc: Global, conn: &mut Connection<S>) -> Result<(), SchemaError>
    ensures there { OnOk result (are_there (state S.Store conn.new).now.schema ≡ true) }
    ensures fits { OnOk result (misfit_of (state S.Store conn.new).now.schema ≡ None) }
    ensures refuses { IfSome (misfit_of (state S.Store conn.old).now.schema) (λ m. IsErr result × IfErr result (Refuses (Some m))) }
    ensures unchanged { IfSome (misfit_of (state S.Store conn.old).now.schema) (λ _. conn.new ≡ conn.old) }
    ensures only { IfErr result (λ e. (m : _) → e ≡ SchemaError.Misfit m → misfit_of (state S.Store conn.old).now.schema ≡ Some m) }
{
    judge(alloc, conn.schema())?;
    match set_up(alloc, conn) {
        Ok(()) => are_made(alloc, conn.schema()),
        Err(error) => Err(failed(error)),
    }
}

// What a failed statement comes to.
fn failed(error: Error) -> SchemaError
    ensures { (result ≡ SchemaError.Memory) ⊎ (result ≡ SchemaError.Failed) }
{
    match error {
        Error::SqliteFailure(ErrorCode::OutOfMemory) => SchemaError::Memory,
        _ => SchemaError::Failed,
    }
}

// Looks at the tables after they were made.
fn are_made(alloc: Global, schema: &Schema) -> Result<(), SchemaError>
    ensures there { OnOk result (are_there schema.now ≡ true) }
    ensures fits { OnOk result (misfit_of schema.now ≡ None) }
    ensures only { IfErr result (λ e. (m : _) → e ≡ SchemaError.Misfit m → ⊥) }
{
    if !are_there(schema) {
        return Err(SchemaError::Failed);
    }
    match judge(alloc, schema) {
        Ok(()) => Ok(()),
        Err(SchemaError::Memory) => Err(SchemaError::Memory),
        Err(_) => Err(SchemaError::Failed),
    }
}

// Makes what is absent, and puts old texts right, in one transaction. None is begun where there is nothing to do.
fn set_up<S: Alter>(alloc: Global, conn: &mut Connection<S>) -> Result<(), Error> {
    let Ok(texts) = absent_texts(alloc, conn.schema()) else {
        return Err(Error::SqliteFailure(ErrorCode::OutOfMemory));
    };
    let puts_right = is_to_put_right(conn)?;
    if texts.is_empty() && !puts_right {
        return Ok(());
    }
    if !conn.is_autocommit() {
        return Err(Error::SqliteFailure(ErrorCode::TransactionState));
    }
    let mut tx = conn.transaction();
    execute_all(&mut tx, texts.as_slice())?;
    if puts_right {
        put_right(&mut tx)?;
    }
    tx.commit()
}

// The texts of the tables and of the index that are absent, in the order in which they can be made.
fn absent_texts(alloc: Global, schema: &Schema) -> Result<Vec<&'static str>, AllocError> {
    let mut texts = Vec::new(alloc);
    for table in ShopTable::ALL {
        if !is_there(schema, table) {
            texts.push(table.text())?;
        }
    }
    if schema.index_named(BY_DEVICE.as_bytes()).is_none()
        && schema.view_named(BY_DEVICE.as_bytes()).is_none()
        && schema.table_named(BY_DEVICE.as_bytes()).is_none()
    {
        texts.push(INDEX)?;
    }
    Ok(texts)
}

// Makes each of the tables and the index anew, with the rows that they have.
fn put_right<S: Alter>(tx: &mut Transaction<'_, S>) -> Result<(), Error> {
    tx.execute_batch(TAKE_OUT)?;
    for table in ShopTable::ALL {
        tx.execute(table.text(), &[])?;
    }
    tx.execute(INDEX, &[])?;
    tx.execute_batch(PUT_BACK)
}

// Runs each of these.
fn execute_all<S: Alter>(tx: &mut Transaction<'_, S>, texts: &[&str]) -> Result<(), Error> {
    for text in texts {
        tx.execute(text, &[])?;
    }
    Ok(())
}
