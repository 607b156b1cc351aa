// Devices that take each other's tokens.
ghost use Rattle.std.specs.Prelude.{◌≡◌, ◌<◌, ◌++◌, length, take, get_or, find, OnOk, IfOk};
ghost use Rattle.std.specs.Option.{option_map};
ghost use Rattle.table_flaws.specs.Found.{share_chain, twin_at, twins};

use crate::findings::Twins;
use ledger_spec::{Name, Row};
use paygo_spec::Memory;
use std::alloc::Global;

// Whether two rows have one key and one starting code.
fn shares_chain(row: &Row, other: &Row) -> bool
    ensures { result ≡ share_chain row.now other.now }
{
    row.key == other.key && row.start == other.start
}

// The serial of the first of these rows that has the key and the starting code of a row.
fn first_twin(rows: &[Row], row: &Row) -> Option<Name>
    ensures { result ≡ option_map (λ first. first.serial) (find (share_chain row.now) rows.now) }
{
    for other in rows {
        if shares_chain(row, other) {
            return Some(other.serial);
        }
    }
    None
}

// Adds the pair of a row and the first of the earlier ones that has its key and its starting code, if there is one.
fn push_twin(earlier: &[Row], row: &Row, twins: &mut Vec<Twins>) -> Result<(), Memory>
    ensures { OnOk result (twins.new.items ≡ twins.old.items ++ twin_at earlier.now row.now) }
{
    if let Some(first) = first_twin(earlier, row) {
        let pair = Twins {
            first,
            second: row.serial,
        };
        if twins.push(pair).is_err() {
            return Err(Memory);
        }
    }
    Ok(())
}

// The pairs of devices of these rows that take each other's tokens. Each row is compared with each one before it.
pub(crate) fn twins_of(alloc: Global, rows: &[Row]) -> Result<Vec<Twins>, Memory>
    ensures { IfOk result (λ list. list.items ≡ twins rows.now) }
{
    let mut list = Vec::new(alloc);
    'rows: for i in 0..rows.len() {
        push_twin(&rows[..i], &rows[i], &mut list)?;
    }
    Ok(list)
}
