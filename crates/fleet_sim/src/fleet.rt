// A fleet in memory, and its steps.
ghost use Rattle.std.specs.Prelude.{◌≡◌, ◌<◌, ◌∷◌, [], ◌++◌, List, All, IfOk, Some, length, sum_by};
ghost use Rattle.std.specs.List.{AllZip};
ghost use Rattle.paygo_spec.specs.Digits.{digits_of};
ghost use Rattle.paygo_spec.specs.Machine.{IsEvent};
ghost use Rattle.ledger_spec.specs.Ledger.{EnrolIsInRange, IsCommand};
ghost use Rattle.ledger_spec.specs.Tables.{no_tables};
ghost use Rattle.ledger_spec.specs.declared.Enrol.{Enrol as EnrolView};
ghost use Rattle.fleet_spec.specs.Fleet.{Site as FleetSite, StepIsInRange, typed, left_of, still};
ghost use Rattle.fleet_sim.specs.Tallies.{no_answers};
ghost use Rattle.fleet_sim.specs.Sites.{StandsFor};
ghost use Rattle.fleet_sim.specs.Fleets.{IsSold, Runs, PlansAt, HasPlanned, CountsAt, EntersAt, TotalsAre, commanded};

use crate::site::Site;
use crate::tally::Tally;
use bench_run::Bench;
use fleet_spec::{Step, Totals};
use ledger_keeper::{Keeper, MemKeeper};
use ledger_spec::{Command, Enrol, Name};
use paygo_spec::{Cut, Event, Form, Memory};
use std::alloc::Global;
use std::marker::Model;
use token_chain::Mixer;

/// A fleet in memory: the shop, its keeper, the devices, and how often each answer came.
#[derive(Drop)]
pub struct MemFleet<M: Mixer> {
    shop: Bench<M>,
    keeper: MemKeeper,
    sites: Vec<Site<M>>,
    tally: Tally,
}

impl<M: Mixer> Model for MemFleet<M> {
    ghost use Rattle.fleet_sim.specs.Fleets.{FleetView};

    ghost Value = { FleetView };

    ghost view = { λ f. record {
      tables = (⟦<MemKeeper as Keeper>⟧.view f.keeper).tables;
      sites = f.sites.items;
      tally = f.tally;
    } };
}

impl<M: Mixer> MemFleet<M> {
    /// A shop that sold no device yet. It takes no memory yet.
    pub fn new(alloc: Global) -> MemFleet<M>
        ensures { result ≡ record { tables = Some no_tables; sites = []; tally = no_answers } }
    {
        MemFleet {
            shop: Bench::start(),
            keeper: MemKeeper::new(alloc),
            sites: Vec::new(alloc),
            tally: Tally::none(),
        }
    }

    /// The shop is given a command.
    ///
    /// # Errors
    ///
    /// `Memory` where there is none, or where the keeper failed, which one in memory does only where it is planned.
    pub fn command(&mut self, alloc: Global, command: &Command) -> Result<(), Memory>
        requires { IsCommand command.now }
        ensures { IfOk result (λ _. self.new ≡ commanded M.next command.now self.old) }
    {
        match self.shop.command(alloc, &mut self.keeper, command) {
            Ok(_) => Ok(()),
            Err(_) => Err(Memory),
        }
    }

    /// Devices are sold and made, the first ones of a shop.
    ///
    /// # Errors
    ///
    /// `Memory` where there is none.
    pub fn sell(alloc: Global, enrols: &[Enrol]) -> Result<MemFleet<M>, Memory>
        requires { All EnrolIsInRange enrols.now }
        ensures { IfOk result (IsSold M.next enrols.now) }
    {
        let mut fleet = MemFleet::new(alloc);
        for enrol in enrols {
            fleet.sell_one(alloc, enrol)?;
        }
        Ok(fleet)
    }

    // One more device is sold and made.
    fn sell_one(&mut self, alloc: Global, enrol: &Enrol) -> Result<(), Memory>
        requires { EnrolIsInRange enrol.now }
        ensures { IfOk result (λ _. (enrols : List EnrolView) → IsSold M.next enrols self.old
            → IsSold M.next (enrols ++ enrol.now ∷ []) self.new) }
    {
        self.command(alloc, &Command::Enroll(*enrol))?;
        if self.sites.push(Site::made(enrol)).is_err() {
            return Err(Memory);
        }
        Ok(())
    }

    // A power cut is planned for the flash of a device.
    fn plan(&mut self, device: u32, cut: Cut)
        requires { device < length self.old.sites }
        ensures { PlansAt device cut self.old self.new }
    {
        let site = &mut self.sites[device as usize];
        site.plan(cut);
    }

    // An event happens to a device.
    fn happen(&mut self, device: u32, event: Event)
        requires device { device < length self.old.sites }
        requires event { IsEvent event }
        ensures { CountsAt M.next device (event ∷ []) self.old self.new }
    {
        let site = &mut self.sites[device as usize];
        site.happen(event, &mut self.tally);
    }

    // The token of an order is typed on a device, where there is such an order.
    fn enter(&mut self, alloc: Global, device: u32, id: &Name) -> Result<(), Memory>
        requires { device < length self.old.sites }
        ensures { IfOk result (λ _. EntersAt M.next device id.now self.old self.new) }
    {
        match self.keeper.order(alloc, id) {
            Ok(found) => {
                let site = &mut self.sites[device as usize];
                site.enter_found(&found, &mut self.tally);
                Ok(())
            }
            Err(_) => Err(Memory),
        }
    }

    // Wrong digits are typed on a device, as many as its form has.
    fn enter_wrong(&mut self, device: u32, form: Form)
        requires { device < length self.old.sites }
        ensures { CountsAt M.next device (typed (digits_of form 0)) self.old self.new }
    {
        let site = &mut self.sites[device as usize];
        site.enter(form, 0, &mut self.tally);
    }

    // One step. These devices were sold.
    fn step(&mut self, alloc: Global, enrols: &[Enrol], step: &Step) -> Result<(), Memory>
        requires step { StepIsInRange (length enrols.now) step.now }
        requires count { length self.old.sites ≡ length enrols.now }
        ensures runs { IfOk result (λ _. Runs M.next enrols.now (step.now ∷ []) self.old self.new) }
        ensures planned { IfOk result (λ _. HasPlanned step.now self.new) }
    {
        match step {
            Step::Ledger(command) => return self.command(alloc, command),
            Step::Plan { device, cut } => self.plan(*device, *cut),
            Step::Wrong { device } => self.enter_wrong(*device, enrols[*device as usize].form),
            Step::Enter { device, id } => return self.enter(alloc, *device, id),
            Step::Tick { device, seconds } => self.happen(*device, Event::Tick(*seconds)),
            Step::Power { device } => self.happen(*device, Event::Power),
        }
        Ok(())
    }

    /// Steps, one after another. These devices were sold.
    ///
    /// # Errors
    ///
    /// `Memory` where there is none.
    pub fn run(&mut self, alloc: Global, enrols: &[Enrol], steps: &[Step]) -> Result<(), Memory>
        requires steps { All (StepIsInRange (length enrols.now)) steps.now }
        requires count { length self.old.sites ≡ length enrols.now }
        ensures { IfOk result (λ _. Runs M.next enrols.now steps.now self.old self.new) }
    {
        for step in steps {
            self.step(alloc, enrols, step)?;
        }
        Ok(())
    }

    /// The totals of all answers so far, and of what stands now. For the time left each device is powered once more, and
    /// that isn't counted.
    pub fn totals(&mut self) -> Totals
        ensures { TotalsAre self.old result }
    {
        Totals {
            orders: self.keeper.orders() as u64,
            accepted: self.tally.accepted,
            old: self.tally.outdated,
            invalid: self.tally.invalid,
            blocked: self.tally.blocked,
            down: self.tally.down,
            left: left_on(&mut self.sites),
        }
    }
}

// The seconds left on all devices together, a number that stands still at 2^64 - 1.
fn left_on<M: Mixer>(sites: &mut Vec<Site<M>>) -> u64
    ensures { (fleet : List FleetSite) → AllZip StandsFor sites.old.items fleet
        → result ≡ still (sum_by (λ site. left_of site.device.stored) fleet) }
{
    let mut all: u64 = 0;
    for i in 0..sites.len() {
        let site = &mut sites[i];
        all = all.saturating_add(site.left());
    }
    all
}
