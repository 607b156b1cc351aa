use super::*;
use ledger_spec::{Ask, Kind, Name, Order};
use std::alloc::Global;

/// An order of this count and value, whose token doesn't matter here.
fn order(count: u16, value: u16) -> Option<Order> {
    let id = Name::of(b"x", 1)?;
    let serial = Name::of(b"A1", 16)?;
    let kind = if value == 999 { Kind::Sync } else { Kind::Add };
    Some(Order {
        id,
        serial,
        ask: Ask::Sync,
        kind,
        count,
        value,
        token: 0,
    })
}

/// The counts of the advice for the orders of these counts and values, a gap, or `above`.
fn told(alloc: Global, sold: &[(u16, u16)], floor: u16) -> Option<String> {
    let mut orders = Vec::new(alloc);
    for (count, value) in sold {
        orders.push(order(*count, *value)?).ok()?;
    }
    match advise(alloc, &orders, 4095, floor) {
        Ok(Advice::List(list)) => {
            let mut text = String::new(alloc);
            for o in &list {
                let part = format!(in alloc; "{} ", o.count).ok()?;
                text.push_str(part.as_str()).ok()?;
            }
            Some(text)
        }
        Ok(Advice::Gap { count }) => format!(in alloc; "gap {count}").ok(),
        Err(AdviceFault::Above { last }) => format!(in alloc; "above {last}").ok(),
        Err(AdviceFault::Memory) => None,
    }
}

const ROW: [(u16, u16); 4] = [(2, 7), (60, 7), (64, 7), (129, 999)];

#[test]
fn the_shortest_way(rt: HostRuntime) {
    let alloc = rt.alloc();
    let cases: [(&[(u16, u16)], u16, &str); 9] = [
        (&ROW, 0, "64 129 "),
        (&ROW, 30, "129 "),
        (&ROW, 129, ""),
        (&ROW, 200, "above 129"),
        (&[(2, 7), (200, 7)], 0, "gap 2"),
        (&[], 0, ""),
        // in another order, and two orders of one count, of which the first alone counts
        (&[(129, 999), (64, 7), (2, 7), (60, 7)], 0, "64 129 "),
        (&[(65, 7), (65, 999)], 0, "gap 0"),
        (&[(65, 999), (65, 7)], 0, "65 "),
    ];
    for (sold, floor, answer) in cases {
        match told(alloc, sold, floor) {
            Some(text) => assert_eq!(rt; text.as_str(), answer),
            None => panic!(rt; "no memory"),
        }
    }
}
