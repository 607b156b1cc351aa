// A device of the fleet, with its flash.
ghost use Rattle.std.specs.Prelude.{◌≡◌, ◌^◌, ◌<◌, ◌∷◌, [], All, IfSome, map};
ghost use Rattle.paygo_spec.specs.declared.Event.TheVariants.{Key};
ghost use Rattle.paygo_spec.specs.Digits.{digits_of};
ghost use Rattle.paygo_spec.specs.Machine.{IsEvent};
ghost use Rattle.paygo_spec.specs.Pad.{IsKey};
ghost use Rattle.ledger_spec.specs.Ledger.{EnrolIsInRange};
ghost use Rattle.ledger_spec.specs.Tables.{OrderIsInRange};
ghost use Rattle.fleet_spec.specs.Fleet.{Site as FleetSite, new_site, left_of, typed};
ghost use Rattle.fleet_sim.specs.Sites.{StandsFor, Plans, Follows, Counts, IsMade, typed_found};

use crate::tally::Tally;
use bench_run::Bench;
use digit_set::write;
use ledger_spec::{Enrol, Order};
use memory_ports::MemFlash;
use paygo_ports::Flash;
use paygo_spec::{Config, Cut, Event, Form, Reply};
use std::marker::Model;
use token_chain::Mixer;

/// A device of the fleet, with its flash. What is seen of it is what the device has in memory, its flash, and the power cut
/// that is planned for that.
#[derive(Drop)]
pub struct Site<M: Mixer> {
    bench: Bench<M>,
    flash: MemFlash,
}

impl<M: Mixer> Model for Site<M> {
    ghost use Rattle.device_core.specs.Memory.{Holds};
    ghost use Rattle.fleet_sim.specs.Sites.{SiteView};
    ghost use Rattle.memory_ports.specs.Plans.{planned_cut};

    ghost Value = { SiteView };

    ghost view = { λ s. record {
      device = s.bench;
      flash = ⟦<MemFlash as Flash>⟧.view s.flash;
      cut = planned_cut s.flash;
    } };

    ghost invariant = { λ s. Holds s.bench (⟦<MemFlash as Flash>⟧.view s.flash) };
}

impl<M: Mixer> Site<M> {
    /// A device before its first event, with an erased flash and no power cut planned.
    pub fn new() -> Site<M>
        ensures { StandsFor result (new_site 0) }
    {
        Site {
            bench: Bench::start(),
            flash: MemFlash::erased(),
        }
    }

    /// A device that was powered and made with what it is enrolled with.
    pub fn made(enrol: &Enrol) -> Site<M>
        requires { EnrolIsInRange enrol.now }
        ensures { IsMade M.next enrol.now result }
    {
        let mut site = Site::new();
        let config = Config {
            key: enrol.key,
            start: enrol.start,
            divider: enrol.divider,
            form: enrol.form,
        };
        let _first = site.event(Event::Power);
        let _second = site.event(Event::Make(config));
        site
    }

    /// An event happens. The reply, if there is one, isn't counted.
    pub fn event(&mut self, event: Event) -> Option<Reply>
        requires { IsEvent event }
        ensures { Follows M.next (event ∷ []) (result ∷ []) self.old self.new }
    {
        self.bench.event(&mut self.flash, event)
    }

    /// An event happens, and its answer is counted.
    pub fn happen(&mut self, event: Event, tally: &mut Tally)
        requires { IsEvent event }
        ensures { Counts M.next (event ∷ []) self.old tally.old self.new tally.new }
    {
        let answer = self.event(event);
        tally.count(&answer);
    }

    /// Keys are pressed, and each answer is counted.
    pub fn press(&mut self, keys: &[u8], tally: &mut Tally)
        requires { All IsKey keys.now }
        ensures { Counts M.next (map Key keys.now) self.old tally.old self.new tally.new }
    {
        for key in keys {
            self.happen(Event::Key(*key), tally);
        }
    }

    /// A token is typed in this form, and `#`. Each answer is counted.
    pub fn enter(&mut self, form: Form, token: u32, tally: &mut Tally)
        requires { token < 10 ^ 9 }
        ensures { Counts M.next (typed (digits_of form token)) self.old tally.old self.new tally.new }
    {
        let mut digits = [0; 15];
        let length = write(form, token, &mut digits);
        self.press(&digits[..length], tally);
        self.happen(Event::Key(b'#'), tally);
    }

    /// The token of an order is typed, and `#`, where there is one. Each answer is counted.
    pub fn enter_found(&mut self, found: &Option<(Order, Form)>, tally: &mut Tally)
        requires { IfSome found.now (λ found. OrderIsInRange found.0) }
        ensures { Counts M.next (typed_found found.now) self.old tally.old self.new tally.new }
    {
        if let Some((order, form)) = found {
            self.enter(*form, order.token, tally);
        }
    }

    /// A power cut is planned, with the bits that it keeps, in place of one that was planned before.
    pub fn plan(&mut self, cut: Cut)
        ensures { Plans cut self.old self.new }
    {
        self.flash.plan(Some(cut));
    }

    /// The seconds left that the flash stands for: 0 where no device was made on it, or where it is damaged. No power cut
    /// stays planned, and the power is switched off and on, which isn't counted.
    pub fn left(&mut self) -> u64
        ensures { (site : FleetSite) → StandsFor self.old site → result ≡ left_of site.device.stored }
    {
        self.flash.plan(None);
        match self.bench.event(&mut self.flash, Event::Power) {
            Some(Reply::Up { left, .. }) => left,
            _ => 0,
        }
    }
}
