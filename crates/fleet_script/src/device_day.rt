//! The steps of a device on a day.

ghost use Rattle.std.specs.Prelude.{◌≡◌, ◌++◌, ◌∷◌, [], OnOk};
ghost use Rattle.fleet_spec.specs.Script.{pay_day, payment, payments, keep_of, cut_of, plans, mistakes, entry, entries_by, entries, hours, steps_by};

use crate::bits::bits;
use crate::naming::{id, serial};
use fleet_spec::Step;
use ledger_spec::Command;
use paygo_spec::{Cut, Memory};

// What a customer pays a week.
const WEEK_PRICE: u64 = 350;

// The seconds of an hour.
const HOUR: u32 = 3600;

// Puts more steps behind these.
fn put(steps: &mut Vec<Step>, more: &[Step]) -> Result<(), Memory>
    ensures { OnOk result (steps.new.items ≡ steps.old.items ++ more.now) }
{
    if steps.extend_from_slice(more).is_err() {
        return Err(Memory);
    }
    Ok(())
}

// The day of the payment of a day's week.
fn pay_day(day: u32) -> u32
    ensures { result ≡ pay_day day }
{
    day - day % 7
}

// A week is paid.
fn payment(device: u32, day: u32) -> Step
    ensures { result ≡ payment device day }
{
    Step::Ledger(Command::Pay {
        id: id(device, day),
        serial: serial(device),
        amount: WEEK_PRICE,
    })
}

// On the day of payment the customer pays a week, in one of four weeks twice with the same id.
fn put_payments(steps: &mut Vec<Step>, word: u32, day: u32, device: u32) -> Result<(), Memory>
    ensures { OnOk result (steps.new.items ≡ steps.old.items ++ payments word day device) }
{
    if day % 7 != 0 {
        return Ok(());
    }
    if bits(word, 0, 2) == 0 {
        put(steps, &[payment(device, day), payment(device, day)])
    } else {
        put(steps, &[payment(device, day)])
    }
}

// The bits that a planned power cut leaves 1.
fn keep(choice: u32) -> u64
    ensures { result ≡ keep_of choice }
{
    match choice {
        0 => 0,
        1 => u64::MAX,
        2 => 0xffff_ffff,
        _ => 0x5555_5555_5555_5555,
    }
}

// The power cut that a word plans.
fn cut(word: u32) -> Cut
    ensures { result ≡ cut_of word }
{
    Cut {
        after: bits(word, 10, 4),
        keep: keep(bits(word, 14, 2)),
    }
}

// On one of eight days a power cut is planned.
fn put_plans(steps: &mut Vec<Step>, word: u32, device: u32) -> Result<(), Memory>
    ensures { OnOk result (steps.new.items ≡ steps.old.items ++ plans word device) }
{
    if bits(word, 7, 3) != 0 {
        return Ok(());
    }
    let cut = cut(word);
    put(steps, &[Step::Plan { device, cut }])
}

// On one of eight days wrong digits are typed.
fn put_mistakes(steps: &mut Vec<Step>, word: u32, device: u32) -> Result<(), Memory>
    ensures { OnOk result (steps.new.items ≡ steps.old.items ++ mistakes word device) }
{
    if bits(word, 4, 3) != 0 {
        return Ok(());
    }
    put(steps, &[Step::Wrong { device }])
}

// The token is typed that was paid on this day.
fn entry(device: u32, day: u32) -> Step
    ensures { result ≡ entry device day }
{
    let id = id(device, day);
    Step::Enter { device, id }
}

// The token that was paid on this day is typed not at all, once, twice, or once and behind it, where there was a week
// before, that week's.
fn put_entries_by(steps: &mut Vec<Step>, choice: u32, day: u32, device: u32) -> Result<(), Memory>
    ensures { OnOk result (steps.new.items ≡ steps.old.items ++ entries_by choice day device) }
{
    match choice {
        0 => Ok(()),
        1 => put(steps, &[entry(device, day)]),
        2 => put(steps, &[entry(device, day), entry(device, day)]),
        _ if day >= 7 => put(steps, &[entry(device, day), entry(device, day - 7)]),
        _ => put(steps, &[entry(device, day)]),
    }
}

// The token of the week is typed, as often as the word says.
fn put_entries(steps: &mut Vec<Step>, word: u32, day: u32, device: u32) -> Result<(), Memory>
    ensures { OnOk result (steps.new.items ≡ steps.old.items ++ entries word day device) }
{
    put_entries_by(steps, bits(word, 2, 2), pay_day(day), device)
}

// The day's hours pass.
fn put_hours(steps: &mut Vec<Step>, device: u32) -> Result<(), Memory>
    ensures { OnOk result (steps.new.items ≡ steps.old.items ++ hours device) }
{
    let hour = Step::Tick {
        device,
        seconds: HOUR,
    };
    put(steps, &[hour; 24])
}

/// Puts the steps of a device on a day behind these, by the word that was drawn for it.
pub(crate) fn put_device_day(
    steps: &mut Vec<Step>,
    word: u32,
    day: u32,
    device: u32,
) -> Result<(), Memory>
    ensures { OnOk result (steps.new.items ≡ steps.old.items ++ steps_by word day device) }
{
    put_payments(steps, word, day, device)?;
    put_plans(steps, word, device)?;
    put_mistakes(steps, word, device)?;
    put_entries(steps, word, day, device)?;
    put_hours(steps, device)?;
    put(steps, &[Step::Power { device }])
}
