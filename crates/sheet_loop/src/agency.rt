// A ledger and a book of sales that handle the lines of agents.
ghost use Rattle.std.specs.Prelude.{◌≡◌, ◌∷◌, [], ℕ, IfOk};
ghost use Rattle.ledger_spec.specs.Keeper.{KeeperView};
ghost use Rattle.ledger_spec.specs.Ledger.{done, IsCommand};
ghost use Rattle.line_loop.specs.Handling.{HasCauses};
ghost use Rattle.line_output.specs.Written.{Wrote};
ghost use Rattle.sheet_book.specs.Books.{StandsFor};
ghost use Rattle.sheet_text.specs.Asks.{ask_in, SheetIsInRange, SoldIsInRange};
ghost use Rattle.sheet_loop.specs.Office.{Office, answers_of_ask, answers_of_line, answers_of_reading, holds_order, kept, last_word, line_of, payments, served};
ghost use Rattle.sheet_loop.specs.Served.{StandsAs, Gives, fault_of, plain};

use bench_run::{Bench, trimmed};
use ledger_keeper::Keeper;
use ledger_spec::{Answer, Command, LedgerFault};
use line_loop::{LineFault, LineHandler, as_line_fault};
use line_output::{write_answer, write_fault, write_line, write_long, write_text};
use paygo_ports::{Flash, Sink, WriteFault};
use paygo_spec::Memory;
use sheet_book::Book;
use sheet_text::{Ask, Sheet, Sold, TextFault, id_of, read, sales_line, sold_line};
use std::alloc::Global;
use token_chain::Mixer;

// The ledger of a shop, and the book of what its agents reported.
#[derive(Drop)]
pub(crate) struct Agency<M: Mixer> {
    bench: Bench<M>,
    book: Book,
}

// A fault of the ledger as one of a line.
fn of_ledger(fault: LedgerFault) -> LineFault
    ensures { result ≡ fault_of fault }
{
    match fault {
        LedgerFault::Keeper => LineFault::Keep,
        LedgerFault::Memory => LineFault::Memory,
    }
}

// Whether an answer is an order.
fn is_order(answer: &Answer) -> bool
    ensures { result ≡ holds_order answer.now }
{
    matches!(answer, Answer::Order(_, _))
}

impl<M: Mixer> Agency<M> {
    // An agency to which nothing was reported.
    pub(crate) fn new(alloc: Global) -> Agency<M>
        ensures { StandsFor result.book [] }
    {
        Agency {
            bench: Bench::start(),
            book: Book::new(alloc).unwrap(),
        }
    }

    // One command to the ledger, and its answer. Answers whether that is an order.
    fn serve<K: Sink, D: Keeper>(
        &mut self,
        alloc: Global,
        command: &Command,
        keeper: &mut D,
        sink: &mut K,
    ) -> Result<bool, LineFault>
        requires { IsCommand command.now }
        ensures causes { HasCauses (plain result) (D.view keeper.old).faults (D.view keeper.new).faults
            (K.view sink.old).faults (K.view sink.new).faults }
        ensures gives { Gives (λ office. served M.next command.now office ∷ []) (plain result)
            (D.view keeper.old) self.old.book (K.view sink.old) (D.view keeper.new) self.new.book (K.view sink.new) }
        ensures order { IfOk result (λ order. (office : Office) → StandsAs (D.view keeper.old) self.old.book office →
            order ≡ holds_order (done M.next office.tables command.now).answer) }
    {
        let answer = match self.bench.command(alloc, keeper, command) {
            Ok(answer) => answer,
            Err(fault) => return Err(of_ledger(fault)),
        };
        let order = is_order(&answer);
        match write_answer(sink, &answer) {
            Ok(()) => Ok(order),
            Err(WriteFault) => Err(LineFault::Write),
        }
    }

    // The payments for the tokens of a sheet, up to the first one that is refused.
    fn sell<K: Sink, D: Keeper>(
        &mut self,
        alloc: Global,
        sheet: &Sheet,
        keeper: &mut D,
        sink: &mut K,
    ) -> Result<(), LineFault>
        requires { SheetIsInRange sheet.now }
        ensures causes { HasCauses result (D.view keeper.old).faults (D.view keeper.new).faults
            (K.view sink.old).faults (K.view sink.new).faults }
        ensures gives { Gives (payments M.next sheet.now 1 sheet.now.tokens) result
            (D.view keeper.old) self.old.book (K.view sink.old) (D.view keeper.new) self.new.book (K.view sink.new) }
    {
        for i in 0..sheet.tokens {
            let payment = Command::Pay {
                id: id_of(&sheet.sheet, i + 1),
                serial: sheet.serial,
                amount: sheet.amount,
            };
            match self.serve(alloc, &payment, keeper, sink) {
                Ok(true) => {}
                Ok(false) => return Ok(()),
                Err(fault) => return Err(fault),
            }
        }
        Ok(())
    }

    // A report of a token that the shop issued is kept, and answered by the sale that counts.
    fn keep<K: Sink>(&mut self, sold: &Sold, sink: &mut K) -> Result<(), LineFault>
        ensures causes { (keeper : ℕ) → HasCauses result keeper keeper (K.view sink.old).faults
            (K.view sink.new).faults }
        ensures gives { (keeper : KeeperView) → Gives (λ office. kept sold.now office ∷ []) result
            keeper self.old.book (K.view sink.old) keeper self.new.book (K.view sink.new) }
    {
        let (sale, money) = match self
            .book
            .report(&sold.sheet, sold.place, &sold.sale, sold.money)
        {
            Ok(kept) => kept,
            Err(Memory) => return Err(LineFault::Memory),
        };
        as_line_fault(write_line(sink, sold_line(&sold.sheet, sold.place, &sale, money)))
    }

    // A sale is reported. The report is kept only where the shop has an order of the token.
    fn report<K: Sink, D: Keeper>(
        &mut self,
        alloc: Global,
        sold: &Sold,
        keeper: &mut D,
        sink: &mut K,
    ) -> Result<(), LineFault>
        requires { SoldIsInRange sold.now }
        ensures causes { HasCauses result (D.view keeper.old).faults (D.view keeper.new).faults
            (K.view sink.old).faults (K.view sink.new).faults }
        ensures gives { Gives (answers_of_ask M.next (Ask.Sold sold.now)) result
            (D.view keeper.old) self.old.book (K.view sink.old) (D.view keeper.new) self.new.book (K.view sink.new) }
    {
        let id = id_of(&sold.sheet, sold.place);
        let answer = match self.bench.command(alloc, keeper, &Command::Order { id }) {
            Ok(answer) => answer,
            Err(fault) => return Err(of_ledger(fault)),
        };
        if is_order(&answer) {
            return self.keep(sold, sink);
        }
        as_line_fault(write_answer(sink, &answer))
    }

    // The text of a line that begins with `{`.
    fn ask<K: Sink, D: Keeper>(
        &mut self,
        alloc: Global,
        text: &[u8],
        keeper: &mut D,
        sink: &mut K,
    ) -> Result<(), LineFault>
        ensures causes { HasCauses result (D.view keeper.old).faults (D.view keeper.new).faults
            (K.view sink.old).faults (K.view sink.new).faults }
        ensures gives { Gives (answers_of_reading M.next (ask_in text.now)) result
            (D.view keeper.old) self.old.book (K.view sink.old) (D.view keeper.new) self.new.book (K.view sink.new) }
    {
        match read(alloc, text) {
            Ok(Ask::Sheet(sheet)) => self.sell(alloc, &sheet, keeper, sink),
            Ok(Ask::Sold(sold)) => self.report(alloc, &sold, keeper, sink),
            Err(fault) => {
                if fault == TextFault::Memory {
                    return Err(LineFault::Memory);
                }
                as_line_fault(write_fault(sink, &fault))
            }
        }
    }
}

impl<M: Mixer> LineHandler for Agency<M> {
    ghost handles = { λ line outcome old new. Gives (answers_of_line M.next line) outcome
        old.keeper old.handler.book old.sink new.keeper new.handler.book new.sink };

    ghost concludes = { λ agency outcome old new. (office : Office) → StandsFor agency.book office.reports →
        Wrote (line_of (last_word office)) outcome old new };

    ghost is_ready = { λ agency flash. Unit {0} };

    ghost spares_keeper = { λ agency. ⊥ };

    ghost spares_flash = { λ agency. Unit {0} };

    fn line<K: Sink, D: Keeper, F: Flash>(
        &mut self,
        alloc: Global,
        line: &[u8],
        keeper: &mut D,
        _flash: &mut F,
        sink: &mut K,
    ) -> Result<(), LineFault> {
        let text = trimmed(line);
        if text.is_empty() {
            return Ok(());
        }
        if text[0] == b'{' {
            return self.ask(alloc, text, keeper, sink);
        }
        as_line_fault(write_text(sink, b"no device here"))
    }

    fn long<K: Sink>(&mut self, size: u64, sink: &mut K) -> Result<(), WriteFault> {
        write_long(sink, size)
    }

    fn end<K: Sink>(&self, sink: &mut K) -> Result<(), WriteFault> {
        let totals = self.book.totals();
        write_line(
            sink,
            sales_line(totals.tokens, totals.money, totals.disputes),
        )
    }
}
