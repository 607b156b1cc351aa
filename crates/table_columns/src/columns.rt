// What one column says.
ghost use Rattle.std.specs.Prelude.{◌≡◌, ◌≤◌, ◌^◌, ◌<◌, ◌==◌, if◌then◌else◌, IfSome, IfOk, Some, None, length};
ghost use Rattle.std.specs.Option.{option_and_then};
ghost use Rattle.sqlite_value.specs.Value.{owned};
ghost use Rattle.sqlite_value.specs.Order.{column};
ghost use Rattle.table_columns.specs.Columns.{number_in, number_below, name_in_column, key_in};

use ledger_spec::Name;
use sqlite::Row as Columns;
use sqlite::types::ValueRef;

// What the column at this place holds: nothing beyond the last one.
fn value(columns: &Columns, at: usize) -> ValueRef<'_>
    ensures { owned result ≡ column columns.now at }
{
    match columns.get_ref(at) {
        Ok(value) => value,
        Err(_) => ValueRef::Null,
    }
}

// The whole number from 0 on in a column.
pub(crate) fn number(columns: &Columns, at: usize) -> Option<u64>
    ensures { result ≡ number_in (column columns.now at) }
{
    match value(columns, at) {
        ValueRef::Int(n) => u64::try_from(n).ok(),
        _ => None,
    }
}

// The whole number below 2^32 in a column.
pub(crate) fn number32(columns: &Columns, at: usize) -> Option<u32>
    ensures { result ≡ number_below (2 ^ 32) (column columns.now at) }
{
    u32::try_from(number(columns, at)?).ok()
}

// The whole number below 2^16 in a column.
pub(crate) fn number16(columns: &Columns, at: usize) -> Option<u16>
    ensures { result ≡ number_below (2 ^ 16) (column columns.now at) }
{
    u16::try_from(number(columns, at)?).ok()
}

// The whole number below 2^8 in a column.
pub(crate) fn number8(columns: &Columns, at: usize) -> Option<u8>
    ensures { result ≡ number_below (2 ^ 8) (column columns.now at) }
{
    u8::try_from(number(columns, at)?).ok()
}

// The name of at most so many bytes in a column.
pub(crate) fn name(columns: &Columns, at: usize, most: usize) -> Option<Name>
    requires { most ≤ 32 }
    ensures { result ≡ name_in_column most (column columns.now at) }
{
    match value(columns, at) {
        ValueRef::Text(bytes) => Name::of(bytes, most),
        _ => None,
    }
}

// The 16 bytes in a column.
pub(crate) fn key(columns: &Columns, at: usize) -> Option<[u8; 16]>
    ensures { result ≡ key_in (column columns.now at) }
{
    match value(columns, at) {
        ValueRef::Blob(bytes) => sixteen(bytes),
        _ => None,
    }
}

// These bytes, if there are 16 of them.
fn sixteen(bytes: &[u8]) -> Option<[u8; 16]>
    ensures { result ≡ (if length bytes.now == 16 then Some bytes.now else None) }
{
    if bytes.len() != 16 {
        return None;
    }
    let mut key = [0; 16];
    key.copy_from_slice(bytes);
    Some(key)
}
