// Many reports, in any order and with repeats. What they come to is reckoned beside the program.
use super::{SERVE, SHEETS, enrolled, said};
use paygo_spec::Memory;
use rand_core::utils::NextWord;
use rand_pcg::Lcg64Xsh32;
use std::alloc::Global;
use std::process::Abort;

/// The stream of the numbers that are drawn.
const STREAM: u64 = 54;

/// How many reports there are.
const REPORTS: usize = 240;

/// Names of sheets: of the last one no token was bought, and of the others these many.
const SHEET_NAMES: [&str; 4] = ["K", "K-1", "k", "Q"];

const BOUGHT: [u8; 4] = [8, 5, 1, 0];

/// Names of sales, by rising bytes.
const SALE_NAMES: [&str; 8] = ["-", "X2", "_", "x", "x-", "x1", "x10", "y"];

/// A report: a sheet and a sale by the places of their names.
#[derive(Clone, Copy, Drop)]
struct Report {
    sheet: u32,
    place: u8,
    sale: u32,
    money: u32,
}

/// A name out of a list.
fn name<'a>(names: &[&'a str], at: u32) -> &'a str {
    match names.get(at as usize) {
        Some(name) => name,
        None => "none",
    }
}

/// Reports that are drawn from a number. Few different sales are drawn, so that many are told twice.
fn drawn(alloc: Global, seed: u64) -> Result<Vec<Report>, Memory> {
    let mut draw = Lcg64Xsh32::new(seed, STREAM);
    let mut reports = Vec::new(alloc);
    for _ in 0..REPORTS {
        let report = Report {
            sheet: draw.next_word() % 4,
            place: (draw.next_word() % 8) as u8 + 1,
            sale: draw.next_word() % 8,
            money: draw.next_word() % 3 + 400,
        };
        reports.push(report).map_err(|_| Memory)?;
    }
    Ok(reports)
}

/// Whether the token that is reported was bought.
fn is_bought(report: &Report) -> bool {
    match BOUGHT.get(report.sheet as usize) {
        Some(tokens) => report.place <= *tokens,
        None => false,
    }
}

/// The line of a report.
fn line_of(alloc: Global, report: &Report) -> Result<String, Memory> {
    let sheet = name(&SHEET_NAMES, report.sheet);
    let sale = name(&SALE_NAMES, report.sale);
    let place = report.place;
    let money = report.money;
    let line = format!(in alloc;
        "{{\"do\":\"sold\",\"sheet\":\"{sheet}\",\"place\":{place},\"sale\":\"{sale}\",\"money\":{money}}}\n"
    );
    line.map_err(|_| Memory)
}

/// The lines of these reports, by turns of so many: the first one, the one so many behind it, and so on round the list.
fn lines_by(
    alloc: Global,
    reports: &[Report],
    turn: usize,
    lines: usize,
) -> Result<String, Memory> {
    let mut text = String::new(alloc);
    let mut at = 0usize;
    for _ in 0..lines {
        if let Some(report) = reports.get(at) {
            text.push_str(line_of(alloc, report)?.as_str())
                .map_err(|_| Memory)?;
        }
        at = at.saturating_add(turn);
        if at >= reports.len() {
            at = at.saturating_sub(reports.len());
        }
    }
    Ok(text)
}

/// The money of the sale that counts at a place, or 0, and whether two differ.
fn judged(reports: &[Report], sheet: u32, place: u8) -> (u64, bool) {
    let mut least: Option<Report> = None;
    let mut differ = false;
    for report in reports {
        if report.sheet == sheet && report.place == place && is_bought(report) {
            if let Some(other) = least {
                differ = differ || other.sale != report.sale || other.money != report.money;
                if (report.sale, report.money) < (other.sale, other.money) {
                    least = Some(*report);
                }
            } else {
                least = Some(*report);
            }
        }
    }
    match least {
        Some(report) => (u64::from(report.money), differ),
        None => (0, false),
    }
}

/// The last line that these reports must have.
fn last_line(alloc: Global, reports: &[Report]) -> Result<String, Memory> {
    let mut tokens = 0u64;
    let mut sum = 0u64;
    let mut disputes = 0u64;
    for sheet in 0..4u32 {
        for place in 1..9u8 {
            let (money, differ) = judged(reports, sheet, place);
            tokens = tokens.saturating_add(u64::from(money > 0));
            sum = sum.saturating_add(money);
            disputes = disputes.saturating_add(u64::from(differ));
        }
    }
    format!(in alloc; "sales {tokens} {sum} {disputes}\n").map_err(|_| Memory)
}

/// The lines by which the sheets are bought.
fn sheets(alloc: Global) -> Result<String, Memory> {
    let mut text = String::new(alloc);
    for (sheet, tokens) in SHEET_NAMES.iter().zip(BOUGHT.iter()) {
        if *tokens > 0 {
            let line = format!(in alloc;
                "{{\"do\":\"sheet\",\"sheet\":\"{sheet}\",\"serial\":\"A1\",\"amount\":350,\"tokens\":{tokens}}}\n"
            );
            text.push_str(line.map_err(|_| Memory)?.as_str())
                .map_err(|_| Memory)?;
        }
    }
    Ok(text)
}

/// How many answers begin so.
fn answers_with(text: &str, begin: &str) -> usize {
    text.lines().filter(|line| line.starts_with(begin)).count()
}

/// Runs the reports of a number in four orders, over one keeper, and looks at the last line of each. Tells it.
fn told_in_any_order(rt: &impl Abort, alloc: Global, seed: u64) -> Result<String, Memory> {
    let reports = drawn(alloc, seed)?;
    let want = last_line(alloc, &reports)?;
    let mut keeper = enrolled(rt, alloc)?;
    let bought = said(rt, alloc, &mut keeper, &SHEETS, sheets(alloc)?.as_str())?;
    assert_eq!(rt; answers_with(&bought, "{\"ok\":\"order\""), 14);
    let sold = reports.iter().filter(|report| is_bought(report)).count();
    // as they came; backwards; and by other turns, each two or three times
    for (turn, times) in [(1usize, 1usize), (239, 1), (37, 2), (101, 3)] {
        let lines = lines_by(alloc, &reports, turn, REPORTS.saturating_mul(times))?;
        let text = said(rt, alloc, &mut keeper, &SHEETS, &lines)?;
        assert!(rt; text.ends_with(want.as_str()), "{seed} {turn} {want}");
        assert_eq!(rt; answers_with(&text, "sales "), 1);
        assert_eq!(rt;
            answers_with(&text, "{\"ok\":\"sold\""),
            sold.saturating_mul(times)
        );
        assert_eq!(rt;
            text.lines().count(),
            REPORTS.saturating_mul(times).saturating_add(1)
        );
    }
    assert_eq!(rt; keeper.orders(), 14);
    Ok(want)
}

#[test]
fn order_and_repeats_change_no_last_line(rt: HostRuntime) -> Result<(), Memory> {
    let alloc = rt.alloc();
    let first = told_in_any_order(&rt, alloc, 1)?;
    let mut others = 0u32;
    for seed in 2..9u64 {
        let text = told_in_any_order(&rt, alloc, seed)?;
        if text.as_str() != first.as_str() {
            others = others.saturating_add(1);
        }
    }
    // reports of another number come to something else
    assert!(rt; others > 0);
    Ok(())
}

#[test]
fn reports_of_one_run_are_not_those_of_another(rt: HostRuntime) -> Result<(), Memory> {
    let alloc = rt.alloc();
    let mut keeper = enrolled(&rt, alloc)?;
    said(&rt, alloc, &mut keeper, &SHEETS, sheets(alloc)?.as_str())?;
    let one = "{\"do\":\"sold\",\"sheet\":\"K\",\"place\":1,\"sale\":\"y\",\"money\":400}\n";
    for _ in 0..2u8 {
        let text = said(&rt, alloc, &mut keeper, &SHEETS, one)?;
        assert!(rt; text.ends_with("\nsales 1 400 0\n"));
    }
    // the shop's own lines are no lines of agents, nor the other way round
    let text = said(&rt, alloc, &mut keeper, &SERVE, one)?;
    assert_eq!(rt; text.as_str(), "{\"no\":10,\"why\":\"shape\",\"rule\":1}\n");
    Ok(())
}
