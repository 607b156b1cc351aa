// The way back for a device that fell behind, which is written.
ghost use Rattle.std.specs.Prelude.{◌≡◌, ◌≢◌, ◌⊎◌, ◌≤◌, length, Some};
ghost use Rattle.std.specs.List.{flat_map};
ghost use Rattle.paygo_spec.specs.Flash.{FlashView};
ghost use Rattle.paygo_spec.specs.Faults.{Counted};
ghost use Rattle.paygo_spec.specs.Streams.{SourceView};
ghost use Rattle.paygo_spec.specs.Text.{with_number};
ghost use Rattle.ledger_spec.specs.Keeper.{KeeperView};
ghost use Rattle.ledger_spec.specs.Sorted.{orders_for};
ghost use Rattle.ledger_spec.specs.Tables.{Tables, row_of};
ghost use Rattle.run_spec.specs.declared.Status.{Status};
ghost use Rattle.line_output.specs.Written.{Wrote};
ghost use Rattle.line_loop.specs.Outside.{outside, Causes};
ghost use Rattle.paygo_cli.specs.Advised.{order_line, text_of_list, WritesAdvice};

use crate::writing::written;
use command_words::Behind;
use ledger_keeper::Keeper;
use ledger_spec::{Answer, KeeperFault, Order, Row};
use ledger_text::{answer_line, numbered};
use line_output::write_line;
use line_text::Line;
use paygo_ports::{Sink, WriteFault};
use paygo_spec::Form;
use run_spec::Status;
use std::alloc::Global;
use sync_advice::{Advice, AdviceFault, advise};

// A word and a number.
fn counted(word: &[u8], n: u64) -> Line
    requires { length word.now ≤ 10 }
    ensures text { result ≡ with_number word.now n }
    ensures size { length result ≤ 511 }
{
    let mut line = Line::new();
    line.push(word);
    line.push_number(n);
    line
}

// Writes a line for each order.
fn write_orders<K: Sink>(sink: &mut K, form: Form, orders: &[Order]) -> Result<(), WriteFault>
    ensures wrote { Wrote (flat_map (order_line form) orders.now) result (K.view sink.old) (K.view sink.new) }
    ensures cause { Counted result (K.view sink.old).faults (K.view sink.new).faults }
{
    for order in orders {
        match write_line(sink, answer_line(&Answer::Order(*order, form))) {
            Ok(()) => {}
            Err(fault) => return Err(fault),
        }
    }
    Ok(())
}

// Writes how many orders there are, and a line for each.
fn write_list<K: Sink>(sink: &mut K, form: Form, orders: &[Order]) -> Result<(), WriteFault>
    ensures wrote { Wrote (text_of_list form orders.now) result (K.view sink.old) (K.view sink.new) }
    ensures cause { Counted result (K.view sink.old).faults (K.view sink.new).faults }
{
    match write_line(sink, counted(b"advise", orders.len() as u64)) {
        Ok(()) => write_orders(sink, form, orders),
        Err(fault) => Err(fault),
    }
}

// Writes the advice for a device with these orders.
fn advise_device<K: Sink>(
    alloc: Global,
    row: &Row,
    orders: &[Order],
    floor: u16,
    sink: &mut K,
) -> Status
    ensures ends { (result ≡ Status.Ok) ⊎ ((result ≡ Status.Write) ⊎ (result ≡ Status.Memory)) }
    ensures causes { (source : SourceView) (keeper : KeeperView) (flash : FlashView) → Causes (Some result)
        (outside source (K.view sink.old) keeper flash) (outside source (K.view sink.new) keeper flash) }
    ensures written { WritesAdvice (Some row.now) orders.now floor result (K.view sink.old) (K.view sink.new) }
{
    match advise(alloc, orders, row.limit, floor) {
        Ok(Advice::List(list)) => written(write_list(sink, row.form, &list)),
        Ok(Advice::Gap { count }) => written(write_line(sink, counted(b"gap", u64::from(count)))),
        Err(AdviceFault::Above { last }) => {
            written(write_line(sink, numbered(13, b"above", b"last", u64::from(last))))
        }
        Err(AdviceFault::Memory) => Status::Memory,
    }
}

// How a run ends whose keeper didn't answer.
fn unanswered(fault: KeeperFault) -> Status
    ensures failed { fault ≡ KeeperFault.Failed → result ≡ Status.Keep }
    ensures memory { fault ≡ KeeperFault.Memory → result ≡ Status.Memory }
{
    match fault {
        KeeperFault::Failed => Status::Keep,
        KeeperFault::Memory => Status::Memory,
    }
}

// Looks for the row of a device that fell behind and for its orders, and writes the advice.
pub(crate) fn run_advice<K: Sink, D: Keeper>(
    alloc: Global,
    behind: &Behind,
    sink: &mut K,
    keeper: &mut D,
) -> Status
    ensures ends { (result ≢ Status.Usage) × (result ≢ Status.Read) × (result ≢ Status.Long) }
    ensures tables { (D.view keeper.new).tables ≡ (D.view keeper.old).tables }
    ensures causes { (source : SourceView) (flash : FlashView) → Causes (Some result)
        (outside source (K.view sink.old) (D.view keeper.old) flash)
        (outside source (K.view sink.new) (D.view keeper.new) flash) }
    ensures written { (tables : Tables) → (D.view keeper.old).tables ≡ Some tables →
        WritesAdvice (row_of tables behind.now.serial) (orders_for tables behind.now.serial) behind.now.floor result
        (K.view sink.old) (K.view sink.new) }
{
    let row = match keeper.device(alloc, &behind.serial) {
        Ok(Some(row)) => row,
        Ok(None) => return written(write_line(sink, answer_line(&Answer::NoDevice))),
        Err(fault) => return unanswered(fault),
    };
    match keeper.orders_of(alloc, &behind.serial) {
        Ok(orders) => advise_device(alloc, &row, &orders, behind.floor, sink),
        Err(fault) => unanswered(fault),
    }
}
