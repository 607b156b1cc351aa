// The tables of a whole shop are checked.
ghost use Rattle.std.specs.Prelude.{◌≡◌, ◌+◌, ◌-◌, ◌^◌, ◌++◌, min, length, IfOk, IfSome};
ghost use Rattle.ledger_spec.specs.Tables.{Tables, RowIsInRange};
ghost use Rattle.ledger_spec.specs.Replay.{orders_back};
ghost use Rattle.ledger_spec.specs.Applied.{fault_for};
ghost use Rattle.table_flaws.specs.Flaws.{row_flaws};
ghost use Rattle.table_flaws.specs.Found.{findings_of, found, Looks};

use crate::finding::push_flaws;
use crate::findings::Findings;
use crate::pairing::twins_of;
use ledger_keeper::Keeper;
use ledger_spec::{KeeperFault, LedgerFault, Row};
use paygo_spec::Memory;
use std::alloc::Global;
use token_chain::Mixer;

// What is answered for a fault of the keeper.
fn fault_of(fault: KeeperFault) -> LedgerFault
    ensures { result ≡ fault_for fault }
{
    match fault {
        KeeperFault::Failed => LedgerFault::Keeper,
        KeeperFault::Memory => LedgerFault::Memory,
    }
}

// Checks a row: its orders are counted, and what is wrong with it is added.
fn look_at<M: Mixer, D: Keeper>(
    alloc: Global,
    keeper: &mut D,
    row: &Row,
    findings: &mut Findings,
) -> Result<(), LedgerFault>
    requires row { RowIsInRange row.now }
    ensures looks { Looks result (D.view keeper.old) (D.view keeper.new) }
    ensures rows { findings.new.rows ≡ findings.old.rows }
    ensures twins { findings.new.twins ≡ findings.old.twins }
    ensures orders { IfOk result (λ _. IfSome (D.view keeper.old).tables (λ t. findings.new.orders
        ≡ min (findings.old.orders + length (orders_back t row.now.serial)) (2 ^ 64 - 1))) }
    ensures flaws { IfOk result (λ _. IfSome (D.view keeper.old).tables (λ t. findings.new.flaws.items
        ≡ findings.old.flaws.items ++ row_flaws M.next t row.now)) }
{
    let orders = match keeper.orders_back(alloc, &row.serial) {
        Ok(orders) => orders,
        Err(fault) => return Err(fault_of(fault)),
    };
    let changes = match keeper.prices_of(alloc, &row.serial) {
        Ok(changes) => changes,
        Err(fault) => return Err(fault_of(fault)),
    };
    findings.orders = findings.orders.saturating_add(orders.len() as u64);
    match push_flaws::<M>(alloc, row, &orders, &changes, &mut findings.flaws) {
        Ok(()) => Ok(()),
        Err(Memory) => Err(LedgerFault::Memory),
    }
}

/// Checks the tables of a keeper: each row, each of its orders and each change of its price, as `flaws_of` does, and
/// whether two devices have one key and one starting code. What is found is `found`, whichever keeper holds the tables,
/// and no table changes. The tables are sound exactly where no flaw is found: see `sound_tables_have_no_flaw`.
///
/// The keeper is called for its rows, and then for the orders and for the changes of each row, by serial. What a row
/// costs is said at `flaws_of`; the tokens of one row's values are in memory at a time. To find twins, each row is
/// compared with the earlier ones, up to the first that has its key and its starting code: half a million comparisons
/// of 20 bytes for 1,000 devices, and 50 million for 10,000.
///
/// # Errors
///
/// `Keeper` where the keeper failed, and the fault is counted, once. `Memory` where there is none for the rows, for the
/// orders or the changes of a row, for the tokens of their values, or for what is found. The tables are as before in
/// both cases. Where a check is answered, and where there is no memory, the keeper's count of faults stays: no fault of
/// it is passed over.
pub fn sound<M: Mixer, D: Keeper>(alloc: Global, keeper: &mut D) -> Result<Findings, LedgerFault>
    ensures looks { Looks result (D.view keeper.old) (D.view keeper.new) }
    ensures found { IfOk result (λ findings. IfSome (D.view keeper.old).tables (λ t.
        findings_of findings ≡ found M.next t)) }
{
    let rows = match keeper.rows(alloc) {
        Ok(rows) => rows,
        Err(fault) => return Err(fault_of(fault)),
    };
    let twins = match twins_of(alloc, &rows) {
        Ok(twins) => twins,
        Err(Memory) => return Err(LedgerFault::Memory),
    };
    let mut findings = Findings {
        rows: rows.len() as u64,
        orders: 0,
        flaws: Vec::new(alloc),
        twins,
    };
    for i in 0..rows.len() {
        look_at::<M, D>(alloc, keeper, &rows[i], &mut findings)?;
    }
    Ok(findings)
}
