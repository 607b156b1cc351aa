// What `advise` writes over tables in memory. The counts of the chain are 7,000 apart, and its starting code is 123456789.
ghost use Rattle.std.specs.Prelude.{◌≡◌, ◌≤◌, ◌<◌, ◌^◌, length};
ghost use Rattle.ledger_spec.specs.Tables.{RowIsInRange, OrderIsInRange};

mod year;

use ledger_keeper::{Keeper, MemKeeper};
use ledger_spec::{Ask, Kind, Name, Order, Row};
use memory_ports::{MemFlash, MemSink, MemSource};
use paygo_cli::{Status, run};
use paygo_spec::{Form, Memory};
use std::alloc::Global;
use std::process::Abort;
use token_chain::Stride;

/// A serial, or an id.
fn name(rt: &impl Abort, text: &[u8]) -> Name
    ensures { length result ≤ 16 }
{
    Name::of(text, 16).expect(rt, "a name")
}

/// The row of the device A1, whose tokens were issued up to count 200.
fn row(rt: &impl Abort) -> Row
    ensures { RowIsInRange result }
{
    Row {
        serial: name(rt, b"A1"),
        key: [0; 16],
        start: 123_456_789,
        divider: 1,
        form: Form::Nine,
        price: 50,
        total: 18_000,
        paid: 350,
        rest: 0,
        last: 200,
        limit: 4095,
        closed: false,
    }
}

/// An order of that device.
fn order(rt: &impl Abort, id: &[u8], kind: Kind, count: u16, value: u16, token: u32) -> Order
    requires count { (1 ≤ count) × (count ≤ 4095) }
    requires value { value ≤ 999 }
    requires token { token < 10 ^ 9 }
    ensures order { OrderIsInRange result }
{
    let ask = if value == 999 {
        Ask::Sync
    } else {
        Ask::Pay(350)
    };
    Order {
        id: name(rt, id),
        serial: name(rt, b"A1"),
        ask,
        kind,
        count,
        value,
        token,
    }
}

/// Gives the keeper an order of the device's row, in three calls.
fn hold(rt: &impl Abort, alloc: Global, keeper: &mut MemKeeper, order: &Order)
    requires { OrderIsInRange order.now }
{
    let mut row = row(rt);
    row.serial = order.serial;
    let known = keeper.device(alloc, &row.serial).expect(rt, "the row");
    assert!(rt; known.is_some());
    let held = match keeper.order(alloc, &order.id) {
        Ok(None) => keeper.add_order(alloc, order, &row).is_ok(),
        _ => false,
    };
    assert!(rt; held);
}

/// A keeper with the device's row and no order, in two calls.
fn enrolled(rt: &impl Abort, alloc: Global) -> MemKeeper {
    let mut keeper = MemKeeper::new(alloc);
    let row = row(rt);
    let held = match keeper.device(alloc, &row.serial) {
        Ok(None) => keeper.add_device(alloc, &row).is_ok(),
        _ => false,
    };
    assert!(rt; held);
    keeper
}

/// What these words write over the keeper, with room for so many bytes.
fn told(
    alloc: Global,
    keeper: &mut MemKeeper,
    words: &[&str],
    room: usize,
) -> Result<(Status, String), Memory> {
    // a source whose first read fails shows that it isn't read
    let mut source = MemSource::new(alloc, b"power\n")?;
    source.fail_at(1);
    let mut sink = MemSink::new(alloc, room)?;
    let status = run::<Stride<7>, MemSource, MemSink, MemKeeper, MemFlash>(
        alloc,
        words,
        &mut source,
        &mut sink,
        keeper,
        &mut MemFlash::erased(),
    );
    let text = str::from_utf8(sink.bytes()).unwrap_or("no text");
    let whole = format!(in alloc; "{text}").map_err(|_| Memory)?;
    Ok((status, whole))
}

const BOTH: &str = "advise 2\n\
{\"ok\":\"order\",\"id\":\"c\",\"serial\":\"A1\",\"kind\":\"add\",\"asked\":350,\"count\":64,\"value\":7,\"token\":\"123904796\"}\n\
{\"ok\":\"order\",\"id\":\"d\",\"serial\":\"A1\",\"kind\":\"sync\",\"asked\":0,\"count\":129,\"value\":999,\"token\":\"124359788\"}\n";

const LAST: &str = "advise 1\n\
{\"ok\":\"order\",\"id\":\"d\",\"serial\":\"A1\",\"kind\":\"sync\",\"asked\":0,\"count\":129,\"value\":999,\"token\":\"124359788\"}\n";

/// The device with payments at the counts 2, 60 and 64, and a sync token at 129.
fn sold(rt: &impl Abort, alloc: Global) -> MemKeeper {
    let mut keeper = enrolled(rt, alloc);
    hold(
        rt,
        alloc,
        &mut keeper,
        &order(rt, b"a", Kind::Add, 2, 7, 123_470_796),
    );
    hold(
        rt,
        alloc,
        &mut keeper,
        &order(rt, b"b", Kind::Add, 60, 7, 123_876_796),
    );
    hold(
        rt,
        alloc,
        &mut keeper,
        &order(rt, b"c", Kind::Add, 64, 7, 123_904_796),
    );
    hold(
        rt,
        alloc,
        &mut keeper,
        &order(rt, b"d", Kind::Sync, 129, 999, 124_359_788),
    );
    keeper
}

#[test]
fn the_shortest_way_is_written(rt: HostRuntime) -> Result<(), Memory> {
    let alloc = rt.alloc();
    let mut keeper = sold(&rt, alloc);
    let rows: [(&str, &str, &str); 7] = [
        ("A1", "0", BOTH),
        ("A1", "00000", BOTH),
        ("A1", "30", LAST),
        ("A1", "129", "advise 0\n"),
        ("A1", "130", "{\"no\":13,\"why\":\"above\",\"last\":129}\n"),
        ("A1", "200", "{\"no\":13,\"why\":\"above\",\"last\":129}\n"),
        ("B2", "0", "{\"no\":1,\"why\":\"no device\"}\n"),
    ];
    for (serial, floor, text) in rows {
        let (status, written) = told(alloc, &mut keeper, &["advise", "D", serial, floor], 4096)?;
        assert_eq!(rt; (status, written.as_str()), (Status::Ok, text));
    }
    Ok(())
}

#[test]
fn a_gap_is_written(rt: HostRuntime) -> Result<(), Memory> {
    let alloc = rt.alloc();
    let mut keeper = enrolled(&rt, alloc);
    let (status, written) = told(alloc, &mut keeper, &["advise", "D", "A1", "0"], 4096)?;
    assert_eq!(rt; (status, written.as_str()), (Status::Ok, "advise 0\n"));
    hold(
        &rt,
        alloc,
        &mut keeper,
        &order(&rt, b"a", Kind::Add, 2, 7, 123_470_796),
    );
    hold(
        &rt,
        alloc,
        &mut keeper,
        &order(&rt, b"b", Kind::Add, 200, 7, 124_856_796),
    );
    let (status, written) = told(alloc, &mut keeper, &["advise", "D", "A1", "0"], 4096)?;
    assert_eq!(rt; (status, written.as_str()), (Status::Ok, "gap 2\n"));
    Ok(())
}

#[test]
fn faults_of_sink_and_keeper_end_an_advice(rt: HostRuntime) -> Result<(), Memory> {
    let alloc = rt.alloc();
    let words = ["advise", "D", "A1", "0"];
    // room for the first line alone, and for one byte of the next
    let mut keeper = sold(&rt, alloc);
    let (status, written) = told(alloc, &mut keeper, &words, 10)?;
    assert_eq!(rt; (status, written.as_str()), (Status::Write, "advise 2\n{"));
    // fourteen calls made the tables: the look for the row fails, and then that for its orders
    for call in [15, 16] {
        let mut keeper = sold(&rt, alloc);
        keeper.fail_at(call, false);
        let (status, written) = told(alloc, &mut keeper, &words, 4096)?;
        assert_eq!(rt; (status, written.as_str()), (Status::Keep, ""));
    }
    Ok(())
}

#[test]
fn words_of_another_form_are_no_advice(rt: HostRuntime) -> Result<(), Memory> {
    let alloc = rt.alloc();
    let rows: [&[&str]; 8] = [
        &["advise", "D", "A1"],
        &["advise", "", "A1", "0"],
        &["advise", "D", "", "0"],
        &["advise", "D", "A 1", "0"],
        &["advise", "D", "A1234567890123456", "0"],
        &["advise", "D", "A1", ""],
        &["advise", "D", "A1", "16384"],
        &["advise", "D", "A1", "000000"],
    ];
    for words in rows {
        let (status, written) = told(alloc, &mut MemKeeper::new(alloc), words, 4096)?;
        assert_eq!(rt; (status, written.as_str()), (Status::Usage, ""));
    }
    Ok(())
}
