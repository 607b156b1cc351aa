// A bench: a device and a ledger whose lines are read and whose answers are written.

use crate::device_lines::{Request, request_in, trimmed};
use device_core::Device;
use ledger_keeper::Keeper;
use ledger_spec::{Answer, Command, LedgerFault, TextFault};
use ledger_text::read;
use line_loop::{LineFault, as_line_fault};
use line_output::{write_answer, write_fault, write_long, write_reply, write_text};
use loan_ledger::apply;
use paygo_ports::{Flash, Sink, WriteFault};
use paygo_spec::{Event, Reply};
use run_spec::Mode;
use std::alloc::Global;
use std::marker::Model;
use token_chain::Mixer;
use token_issue::Tables;

/// A device and the chain tables of the ledger, under one mixer: before it lines come in, and behind it answers go out. The
/// tables are made at the first command. It is seen as its device, since what the tables keep never changes an answer.
#[derive(Drop)]
pub struct Bench<M: Mixer> {
    device: Device,
    tables: Option<Tables<M>>,
}

impl<M: Mixer> Model for Bench<M> {
    ghost use Rattle.device_core.specs.declared.device.Device.{Device as DeviceView};

    ghost Value = { DeviceView };

    ghost view = { λ bench. bench.device };
}

impl<M: Mixer> Bench<M> {
    ghost use Rattle.std.specs.Prelude.{◌≡◌, ◌≢◌, ◌≤◌, true, false, [], ◌∷◌, ◌++◌, codes, length, map, Some, Err, IfOk};
    ghost use Rattle.std.specs.Fmt.{decimal};
    ghost use Rattle.paygo_spec.specs.Faults.{Counted};
    ghost use Rattle.paygo_spec.specs.Flash.{FlashView, KeepsPlan};
    ghost use Rattle.paygo_spec.specs.Machine.{IsEvent, FaultsBy};
    ghost use Rattle.paygo_spec.specs.Pad.{kept_of, no_keys};
    ghost use Rattle.ledger_spec.specs.Applied.{Applies};
    ghost use Rattle.ledger_spec.specs.Keeper.{KeeperView};
    ghost use Rattle.ledger_spec.specs.Ledger.{done, IsCommand, AnswerIsInRange};
    ghost use Rattle.run_spec.specs.DeviceLines.{are_key_text, is_key_text, presses};
    ghost use Rattle.run_spec.specs.Meaning.{is_ledger_text, steps_of_line, steps_of_ledger, steps_of_device, trimmed as line_trimmed};
    ghost use Rattle.run_spec.specs.Run.{Say, Do, Act};
    ghost use Rattle.device_core.specs.Memory.{is_on, Holds, IsDown, Does, CostsAsSaid, Remembers};
    ghost use Rattle.line_loop.specs.Handling.{HasCauses, of_line};
    ghost use Rattle.bench_run.specs.Bench.{desk, Works, DeviceDid, Says, IsLedgerFault};

    /// A bench whose device is off, and has a pad on which nothing was typed.
    pub fn start() -> Bench<M>
        ensures off { is_on result ≡ false }
        ensures pad { result.pad ≡ kept_of no_keys }
    {
        Bench {
            device: Device::off(),
            tables: None,
        }
    }

    /// One event of the device under the bench's mixer, as [`Device::event`] takes it. Nothing is written.
    ///
    /// The caller sees to it that the event is one that may be asked for, and that a device that is on is handed the flash
    /// as it left it.
    pub fn event<F: Flash>(&mut self, flash: &mut F, event: Event) -> Option<Reply>
        requires event { IsEvent event }
        requires holds { Holds self.old (F.view flash.old) }
        ensures holds { Holds self.new (F.view flash.new) }
        ensures faults { FaultsBy result (F.view flash.old).faults (F.view flash.new).faults }
        ensures plan { KeepsPlan (F.view flash.old) (F.view flash.new) }
        ensures down { result ≡ Some Reply.Down → IsDown self.new }
        ensures step { Does M.next event self.old (F.view flash.old) result self.new (F.view flash.new) }
        ensures calls { CostsAsSaid M.next event self.old (F.view flash.old) result (F.view flash.new) }
        ensures kept { event ≡ Event.Power → (F.view flash.new).words ≡ (F.view flash.old).words }
        ensures memory { Remembers M.next event self.old (F.view flash.old) result self.new (F.view flash.new) }
    {
        self.device.event::<M, F>(flash, event)
    }

    /// A command to the ledger, over the bench's chain tables, as [`apply`] answers it. Nothing is written, and the device stays
    /// as it is. It takes memory.
    ///
    /// # Errors
    ///
    /// `Keeper` where the keeper failed, once, and counted it: the tables are as before or have the whole change. `Memory` where
    /// there is none: the tables are as before. In any other call the keeper counted no fault.
    pub fn command<D: Keeper>(
        &mut self,
        alloc: Global,
        keeper: &mut D,
        command: &Command,
    ) -> Result<Answer, LedgerFault>
        requires { IsCommand command.now }
        ensures same { self.new ≡ self.old }
        ensures applied { Applies (λ t. done M.next t command.now) result (D.view keeper.old) (D.view keeper.new) }
        ensures in_range { IfOk result AnswerIsInRange }
    {
        let mut tables = match self.tables.take() {
            Some(tables) => tables,
            None => match Tables::new(alloc) {
                Ok(tables) => tables,
                Err(_) => return Err(LedgerFault::Memory),
            },
        };
        let answer = apply::<M, D>(alloc, keeper, &mut tables, command);
        self.tables = Some(tables);
        answer
    }

    /// One line of at most 4,096 bytes: its steps are answered one after the other, and each answer is written, with
    /// the byte 10 behind it, before the next step is taken. A line of keys has a step for each key; every other line has
    /// one, but an empty line, which has none. A line that begins with `{` is one of the ledger, and every other line one of
    /// the device. A line of the side that the mode leaves out is answered `no ledger here` or `no device here`, and the
    /// keeper in `Mode::Device`, and device and flash in `Mode::Serve`, are as they were. A line of the ledger takes memory, and
    /// no other line does.
    ///
    /// The caller sees to it that a device that is on is handed the flash as it left it.
    ///
    /// # Errors
    ///
    /// `Write` where the sink failed, once, and counted it. The steps up to the one whose answer failed have happened, and no
    /// later one; every earlier answer was written whole, and of the last one fewer bytes than it has. `Keep` where the keeper
    /// failed, once, and counted it, and `Memory`, at a line of the ledger alone and never in `Mode::Device`: nothing was written,
    /// and device and flash are as before. At `Keep` the tables are as before or have the whole change of the command; at `Memory`
    /// they are as before. No other fault of keeper and sink was counted, and of the flash none but those that were planned.
    pub fn line<K: Sink, D: Keeper, F: Flash>(
        &mut self,
        alloc: Global,
        mode: Mode,
        line: &[u8],
        keeper: &mut D,
        flash: &mut F,
        sink: &mut K,
    ) -> Result<(), LineFault>
        requires most { length line.now ≤ 4096 }
        requires holds { Holds self.old (F.view flash.old) }
        ensures holds { Holds self.new (F.view flash.new) }
        ensures plan { KeepsPlan (F.view flash.old) (F.view flash.new) }
        ensures causes { HasCauses result (D.view keeper.old).faults (D.view keeper.new).faults
            (K.view sink.old).faults (K.view sink.new).faults }
        ensures ledger { IsLedgerFault result → (mode ≢ Mode.Device) × (is_ledger_text (line_trimmed line.now) ≡ true) }
        ensures unwritten { IsLedgerFault result →
            (self.new ≡ self.old) × (flash.new ≡ flash.old) × (sink.new ≡ sink.old) }
        ensures keeper { mode ≡ Mode.Device → keeper.new ≡ keeper.old }
        ensures device { mode ≡ Mode.Serve → (self.new ≡ self.old) × (flash.new ≡ flash.old) }
        ensures works { Works M.next mode (steps_of_line mode line.now) result
            (desk self.old (D.view keeper.old) (F.view flash.old) (K.view sink.old))
            (desk self.new (D.view keeper.new) (F.view flash.new) (K.view sink.new)) }
    {
        let text = trimmed(line);
        if text.is_empty() {
            return Ok(());
        }
        if text[0] == b'{' {
            return self.ledger_line(alloc, mode, text, keeper, sink);
        }
        as_line_fault(self.device_line(mode, text, flash, sink))
    }

    // The text of a line of the ledger.
    fn ledger_line<K: Sink, D: Keeper>(
        &mut self,
        alloc: Global,
        mode: Mode,
        text: &[u8],
        keeper: &mut D,
        sink: &mut K,
    ) -> Result<(), LineFault>
        ensures same { self.new ≡ self.old }
        ensures causes { HasCauses result (D.view keeper.old).faults (D.view keeper.new).faults
            (K.view sink.old).faults (K.view sink.new).faults }
        ensures ledger { IsLedgerFault result → (mode ≢ Mode.Device) × (sink.new ≡ sink.old) }
        ensures keeper { mode ≡ Mode.Device → keeper.new ≡ keeper.old }
        ensures works { (flash : FlashView) → Works M.next mode (steps_of_ledger mode text.now) result
            (desk self.old (D.view keeper.old) flash (K.view sink.old))
            (desk self.new (D.view keeper.new) flash (K.view sink.new)) }
    {
        if mode == Mode::Device {
            return as_line_fault(write_text(sink, b"no ledger here"));
        }
        match read(alloc, text) {
            Ok(command) => self.do_command(alloc, mode, &command, keeper, sink),
            Err(fault) => {
                if fault == TextFault::Memory {
                    return Err(LineFault::Memory);
                }
                as_line_fault(write_fault(sink, &fault))
            }
        }
    }

    // A command, and its answer.
    fn do_command<K: Sink, D: Keeper>(
        &mut self,
        alloc: Global,
        mode: Mode,
        command: &Command,
        keeper: &mut D,
        sink: &mut K,
    ) -> Result<(), LineFault>
        requires command { IsCommand command.now }
        requires mode { mode ≢ Mode.Device }
        ensures same { self.new ≡ self.old }
        ensures ledger { IsLedgerFault result → sink.new ≡ sink.old }
        ensures causes { HasCauses result (D.view keeper.old).faults (D.view keeper.new).faults
            (K.view sink.old).faults (K.view sink.new).faults }
        ensures works { (flash : FlashView) → Works M.next mode (Do command.now ∷ []) result
            (desk self.old (D.view keeper.old) flash (K.view sink.old))
            (desk self.new (D.view keeper.new) flash (K.view sink.new)) }
    {
        match self.command(alloc, keeper, command) {
            Ok(answer) => as_line_fault(write_answer(sink, &answer)),
            Err(LedgerFault::Keeper) => Err(LineFault::Keep),
            Err(LedgerFault::Memory) => Err(LineFault::Memory),
        }
    }

    // The text of a line of the device.
    fn device_line<K: Sink, F: Flash>(
        &mut self,
        mode: Mode,
        text: &[u8],
        flash: &mut F,
        sink: &mut K,
    ) -> Result<(), WriteFault>
        requires holds { Holds self.old (F.view flash.old) }
        ensures holds { Holds self.new (F.view flash.new) }
        ensures plan { KeepsPlan (F.view flash.old) (F.view flash.new) }
        ensures cause { Counted result (K.view sink.old).faults (K.view sink.new).faults }
        ensures device { mode ≡ Mode.Serve → (self.new ≡ self.old) × (flash.new ≡ flash.old) }
        ensures works { (keeper : KeeperView) → Works M.next mode (steps_of_device mode text.now) (of_line result)
            (desk self.old keeper (F.view flash.old) (K.view sink.old))
            (desk self.new keeper (F.view flash.new) (K.view sink.new)) }
    {
        if mode == Mode::Serve {
            return write_text(sink, b"no device here");
        }
        match request_in(text) {
            Some(Request::One(event)) => self.answer(event, flash, sink),
            Some(Request::Keys(text)) => self.keys(text, flash, sink),
            None => write_text(sink, b"unread"),
        }
    }

    /// A line of more than 4,096 bytes, of which only the length is known: it is answered `long` and that length.
    ///
    /// # Errors
    ///
    /// `WriteFault` as `Write` in [`Bench::line`].
    pub fn long<K: Sink>(&mut self, size: u64, sink: &mut K) -> Result<(), WriteFault>
        ensures same { self.new ≡ self.old }
        ensures cause { Counted result (K.view sink.old).faults (K.view sink.new).faults }
        ensures works { Says M.next (Say (codes "long " ++ decimal size) ∷ []) result (K.view sink.old)
            (K.view sink.new) }
    {
        write_long(sink, size)
    }

    // The keys of a text, each answered before the next one is pressed.
    fn keys<K: Sink, F: Flash>(
        &mut self,
        text: &[u8],
        flash: &mut F,
        sink: &mut K,
    ) -> Result<(), WriteFault>
        requires keys { are_key_text text.now ≡ true }
        requires holds { Holds self.old (F.view flash.old) }
        ensures { DeviceDid M.next (map Act (presses text.now)) result self.old (F.view flash.old) (K.view sink.old)
            self.new (F.view flash.new) (K.view sink.new) }
    {
        for byte in text {
            match self.key(*byte, flash, sink) {
                Ok(()) => {}
                Err(fault) => return Err(fault),
            }
        }
        Ok(())
    }

    // One byte of the text of keys: a space is passed over, and a key is pressed and answered.
    fn key<K: Sink, F: Flash>(
        &mut self,
        key: u8,
        flash: &mut F,
        sink: &mut K,
    ) -> Result<(), WriteFault>
        requires key { is_key_text key ≡ true }
        requires holds { Holds self.old (F.view flash.old) }
        ensures { DeviceDid M.next (map Act (presses (key ∷ []))) result self.old (F.view flash.old) (K.view sink.old)
            self.new (F.view flash.new) (K.view sink.new) }
    {
        if key == b' ' {
            return Ok(());
        }
        self.answer(Event::Key(key), flash, sink)
    }

    // One event of the device, and its reply, where it has one.
    fn answer<K: Sink, F: Flash>(
        &mut self,
        event: Event,
        flash: &mut F,
        sink: &mut K,
    ) -> Result<(), WriteFault>
        requires event { IsEvent event }
        requires holds { Holds self.old (F.view flash.old) }
        ensures { DeviceDid M.next (Act event ∷ []) result self.old (F.view flash.old) (K.view sink.old)
            self.new (F.view flash.new) (K.view sink.new) }
    {
        let reply = self.event(flash, event);
        write_reply(sink, reply)
    }
}

#[cfg(test)]
mod tests;
