// A whole run.
ghost use Rattle.std.specs.Prelude.{◌≡◌, ◌≢◌, ◌⊎◌, ◌↔◌, true, ℕ, map, Some, None};
ghost use Rattle.ledger_spec.specs.Sorted.{orders_for};
ghost use Rattle.ledger_spec.specs.Tables.{Tables, row_of};
ghost use Rattle.run_spec.specs.declared.Mode.{Mode as Taken};
ghost use Rattle.loan_ledger.specs.Audit.{audited};
ghost use Rattle.loan_ledger.specs.AuditText.{text_of_findings};
ghost use Rattle.table_flaws.specs.Found.{found};
ghost use Rattle.table_flaws.specs.FlawText.{text_of_findings as text_of_flaws};
ghost use Rattle.ledger_spec.specs.Stuck.{stuck_below};
ghost use Rattle.line_loop.specs.Outside.{outside, Causes, IsCalm, IsLong, Reads};
ghost use Rattle.bench_loop.specs.Runs.{RunsTold, RunsUnseen};
ghost use Rattle.deal_runs.specs.Programs.{RunsOn};
ghost use Rattle.command_words.specs.declared.words.Behind.{Behind};
ghost use Rattle.command_words.specs.declared.words.Candidate.{Candidate};
ghost use Rattle.check_loop.specs.Logs.{ChecksLog};
ghost use Rattle.sheet_loop.specs.Sheets.{RunsSheets};
ghost use Rattle.command_words.specs.Forms.{work_of, takes_lines};
ghost use Rattle.paygo_cli.specs.Ends.{WritesText, WritesFleet};
ghost use Rattle.paygo_cli.specs.Advised.{WritesAdvice};
ghost use Rattle.paygo_cli.specs.Listed.{text_of_values};

use crate::advising::run_advice;
use crate::auditing::run_audit;
use crate::listing::run_values;
use crate::simulating::run_simulation;
use crate::sounding::run_sound;
use bench_loop::run_bench;
use check_loop::run_check;
use command_words::{Work, work_in};
use ledger_keeper::Keeper;
use paygo_ports::{Flash, Sink, Source};
use run_spec::Status;
use sheet_loop::run_sheets;
use std::alloc::Global;
use token_chain::Mixer;

/// Runs the program by its words: `serve DB` takes the lines of the source to the ledger over the keeper, `device FLASH` to
/// a device over the flash, and `bench DB FLASH` to both, and each writes the answers to the sink, each before the next
/// event happens or the next line is taken. The device is off at first. `ring FLASH BANKS` does what `device FLASH` does, and all
/// that is said of `device` holds of it; its caller hands in a ring of so many banks (`banks_in`) as the flash. `audit DB` checks each token that the keeper's tables
/// hold, and writes the ids of the wrong ones and how many there are. `fleet SEED DEVICES DAYS` draws a fleet from the seed, runs
/// it in memory, and writes its totals. `sheets DB` takes the lines of the source as those of agents: payments for sheets of tokens,
/// and reports of their sales, and writes behind their answers what all reports come to. `advise DB SERIAL FLOOR` writes the fewest of the serial's orders whose tokens bring a
/// device up to date whose last count is at least the floor. `check` takes the lines of the source as a log of a `bench` run, and
/// writes whether any run of shop and device that began with empty tables and an erased flash has it. `sound DB` checks the
/// keeper's tables whole, and writes each thing that is wrong and how many there are. `values KEY START LIMIT` writes the kinds and
/// values that can't be sold in the reach of a device with this key and starting code whose last count is at most the limit.
///
/// - `Usage` exactly where the words are no form that the program knows. Nothing is read or written then.
/// - `Ok` where lines are taken only where the source has told its end; every line was answered. Of a run that takes
///   none the whole text was written.
/// - `Read` where the source failed, and only where lines are taken. Every whole line was answered.
/// - `Write` where the sink failed. The steps of the lines were answered up to one whose answer was cut, and no later one was
///   taken; each earlier answer was written whole. The text of a run that takes no lines was cut.
/// - `Keep` where the keeper failed, and never for `device`, `fleet`, `check` and `values`. Every answer before that of one command
///   was written; the tables are as before that command, or have its whole change. Of an audit, a check of the tables and an advice
///   nothing was written.
/// - `Memory` where there was none for a line of the ledger, of an agent or of a log, or for a run that takes no lines; never for
///   `device`. Every answer before it was written, and the tables are those behind it. Of a run that takes no lines, and of a check
///   of a log, nothing was written.
/// - `Long` where lines are taken, exactly where 2^40 bytes were handed out, the source hasn't told its end, and every whole line
///   was answered.
///
/// No fault is passed over: each one of source, sink and keeper is counted, once, and ends the run, and none has one where the
/// run ends otherwise (`causes`). Where none of their counts rises, the status is `Ok`, `Long` or, but for `device`, `Memory`. Of
/// the flash no more calls fail than were planned, where it tells its plan; each `down` is one fault of it, and nothing else is
/// (`downs_are`). A count stands still at 2^64 - 1.
///
/// What is written is the text of the answers to the lines that were handed out, whatever source and sink are. Where keeper and
/// flash tell what they hold, the answers are those of the machine of shop and device, the flash's due falls by the calls of
/// each event, and from sound tables the shop's and the customer's promises are kept (`run`). Over a flash that tells no words, as
/// a file tells none, each answer of the device is that of its machine by what it has in memory, a history that a device can have,
/// so that between two power-ups each count is accepted once at most; and what rests on the tables alone is kept as well (`unseen`).
/// Where keeper and flash tell what they hold, the run goes on with the deal of shop and customer, whatever life led to what it
/// found: with its turns, by these lines and answers, all so far is a deal, which keeps the six promises (`deal`).
/// Where a line failed, less than a block of 8,192 bytes was handed out behind it. An audit changes nothing, and writes what there
/// is to find in tables that are told (`audited`). A fleet's totals are those of shop and devices on the days that the seed draws,
/// each planned power cut in the event in which it falls; where none is planned they are a function of the words (`simulated`). An
/// advice changes nothing, and over tables that are told what is written is that of the device's orders and limit (`advised`). A
/// check writes the verdict on the log, `yes` exactly where it is the whole log of a run and never more than 64 states fit
/// (`checked`, with the laws of log_check). The answers to agents over tables that are told are those of the ledger and of the reports,
/// and no payment is made behind the one at which the run ends (`sold`, with the laws of sheet_loop). A check of the tables changes
/// nothing, and over tables that are told it writes what there is to find in them: no flaw exactly where they are sound (`sounded`,
/// with the law of table_flaws). The listed values are those that the definition says (`listed`, with the laws of ledger_laws). It
/// takes memory but for `device`.
pub fn run<M: Mixer, S: Source, K: Sink, D: Keeper, F: Flash>(
    alloc: Global,
    words: &[&str],
    source: &mut S,
    sink: &mut K,
    keeper: &mut D,
    flash: &mut F,
) -> Status
    ensures usage { (result ≡ Status.Usage) ↔ (work_of (map (λ word. word.now) words.now) ≡ None) }
    ensures unused { result ≡ Status.Usage →
        (source.new ≡ source.old) × (sink.new ≡ sink.old) × (keeper.new ≡ keeper.old) × (flash.new ≡ flash.old) }
    ensures device { work_of (map (λ word. word.now) words.now) ≡ Some (Work.Lines Taken.Device) →
        (keeper.new ≡ keeper.old) × (result ≢ Status.Keep) × (result ≢ Status.Memory) }
    ensures serve { work_of (map (λ word. word.now) words.now) ≡ Some (Work.Lines Taken.Serve) → flash.new ≡ flash.old }
    ensures audit { work_of (map (λ word. word.now) words.now) ≡ Some Work.Audit →
        (source.new ≡ source.old) × (flash.new ≡ flash.old) ×
        ((D.view keeper.new).tables ≡ (D.view keeper.old).tables) × (result ≢ Status.Read) × (result ≢ Status.Long) }
    ensures fleet { (seed devices days : ℕ) →
        work_of (map (λ word. word.now) words.now) ≡ Some (Work.Fleet seed devices days) →
        (source.new ≡ source.old) × (keeper.new ≡ keeper.old) × (flash.new ≡ flash.old) × (result ≢ Status.Read) ×
        (result ≢ Status.Keep) × (result ≢ Status.Long) }
    ensures sheets { work_of (map (λ word. word.now) words.now) ≡ Some Work.Sheets → flash.new ≡ flash.old }
    ensures advise { (behind : Behind) →
        work_of (map (λ word. word.now) words.now) ≡ Some (Work.Advise behind) →
        (source.new ≡ source.old) × (flash.new ≡ flash.old) ×
        ((D.view keeper.new).tables ≡ (D.view keeper.old).tables) × (result ≢ Status.Read) × (result ≢ Status.Long) }
    ensures check { work_of (map (λ word. word.now) words.now) ≡ Some Work.Check →
        (keeper.new ≡ keeper.old) × (flash.new ≡ flash.old) × (result ≢ Status.Keep) }
    ensures sound { work_of (map (λ word. word.now) words.now) ≡ Some Work.Sound →
        (source.new ≡ source.old) × (flash.new ≡ flash.old) ×
        ((D.view keeper.new).tables ≡ (D.view keeper.old).tables) × (result ≢ Status.Read) × (result ≢ Status.Long) }
    ensures values { (candidate : Candidate) →
        work_of (map (λ word. word.now) words.now) ≡ Some (Work.Values candidate) →
        (source.new ≡ source.old) × (keeper.new ≡ keeper.old) × (flash.new ≡ flash.old) × (result ≢ Status.Read) ×
        (result ≢ Status.Keep) × (result ≢ Status.Long) }
    ensures causes { Causes (Some result)
        (outside (S.view source.old) (K.view sink.old) (D.view keeper.old) (F.view flash.old))
        (outside (S.view source.new) (K.view sink.new) (D.view keeper.new) (F.view flash.new)) }
    ensures ended { takes_lines (work_of (map (λ word. word.now) words.now)) ≡ true → result ≡ Status.Ok →
        (S.view source.new).ended ≡ true }
    ensures long { takes_lines (work_of (map (λ word. word.now) words.now)) ≡ true →
        IsLong result (S.view source.old) (S.view source.new) }
    ensures read { takes_lines (work_of (map (λ word. word.now) words.now)) ≡ true →
        Reads result (S.view source.old) (S.view source.new) }
    ensures complete { result ≢ Status.Usage → IsCalm (S.view source.old).faults (S.view source.new).faults →
        IsCalm (K.view sink.old).faults (K.view sink.new).faults →
        IsCalm (D.view keeper.old).faults (D.view keeper.new).faults →
        (result ≡ Status.Ok) ⊎ ((result ≡ Status.Long) ⊎ (result ≡ Status.Memory)) }
    ensures run { (mode : Taken) → work_of (map (λ word. word.now) words.now) ≡ Some (Work.Lines mode) →
        RunsTold M.next mode result
        (outside (S.view source.old) (K.view sink.old) (D.view keeper.old) (F.view flash.old))
        (outside (S.view source.new) (K.view sink.new) (D.view keeper.new) (F.view flash.new)) }
    ensures unseen { (mode : Taken) → work_of (map (λ word. word.now) words.now) ≡ Some (Work.Lines mode) →
        RunsUnseen M.next mode result
        (outside (S.view source.old) (K.view sink.old) (D.view keeper.old) (F.view flash.old))
        (outside (S.view source.new) (K.view sink.new) (D.view keeper.new) (F.view flash.new)) }
    ensures deal { (mode : Taken) → work_of (map (λ word. word.now) words.now) ≡ Some (Work.Lines mode) →
        RunsOn M.next mode result
        (outside (S.view source.old) (K.view sink.old) (D.view keeper.old) (F.view flash.old))
        (outside (S.view source.new) (K.view sink.new) (D.view keeper.new) (F.view flash.new)) }
    ensures audited { work_of (map (λ word. word.now) words.now) ≡ Some Work.Audit →
        (tables : Tables) → (D.view keeper.old).tables ≡ Some tables →
        WritesText result (text_of_findings (audited M.next tables)) (K.view sink.old) (K.view sink.new) }
    ensures simulated { (seed devices days : ℕ) →
        work_of (map (λ word. word.now) words.now) ≡ Some (Work.Fleet seed devices days) →
        WritesFleet M.next seed devices days result (K.view sink.old) (K.view sink.new) }
    ensures sold { work_of (map (λ word. word.now) words.now) ≡ Some Work.Sheets →
        RunsSheets M.next result
        (outside (S.view source.old) (K.view sink.old) (D.view keeper.old) (F.view flash.old))
        (outside (S.view source.new) (K.view sink.new) (D.view keeper.new) (F.view flash.new)) }
    ensures advised { (behind : Behind) →
        work_of (map (λ word. word.now) words.now) ≡ Some (Work.Advise behind) →
        (tables : Tables) → (D.view keeper.old).tables ≡ Some tables →
        WritesAdvice (row_of tables behind.serial) (orders_for tables behind.serial) behind.floor result
        (K.view sink.old) (K.view sink.new) }
    ensures checked { work_of (map (λ word. word.now) words.now) ≡ Some Work.Check →
        ChecksLog M.next result (S.view source.old) (S.view source.new) (K.view sink.old) (K.view sink.new) }
    ensures sounded { work_of (map (λ word. word.now) words.now) ≡ Some Work.Sound →
        (tables : Tables) → (D.view keeper.old).tables ≡ Some tables →
        WritesText result (text_of_flaws (found M.next tables)) (K.view sink.old) (K.view sink.new) }
    ensures listed { (candidate : Candidate) →
        work_of (map (λ word. word.now) words.now) ≡ Some (Work.Values candidate) →
        WritesText result (text_of_values (stuck_below (M.next candidate.key) candidate.start candidate.limit 1000))
        (K.view sink.old) (K.view sink.new) }
{
    match work_in(words) {
        Some(Work::Lines(mode)) => {
            run_bench::<M, S, K, D, F>(alloc, mode, source, sink, keeper, flash)
        }
        Some(Work::Audit) => run_audit::<M, K, D>(alloc, sink, keeper),
        Some(
            Work::Fleet {
                seed,
                devices,
                days,
            },
        ) => run_simulation::<M, K>(alloc, seed, devices, days, sink),
        Some(Work::Sheets) => run_sheets::<M, S, K, D, F>(alloc, source, sink, keeper, flash),
        Some(Work::Advise(behind)) => run_advice::<K, D>(alloc, &behind, sink, keeper),
        Some(Work::Check) => run_check::<M, S, K, D, F>(alloc, source, sink, keeper, flash),
        Some(Work::Sound) => run_sound::<M, K, D>(alloc, sink, keeper),
        Some(Work::Values(candidate)) => run_values::<M, K>(alloc, &candidate, sink),
        None => Status::Usage,
    }
}
