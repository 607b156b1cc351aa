// What is true of every fleet, whatever choices were taken in it. Each function here has no body that does anything:
// its contract is a law on the definitions of fleets, and the check proves it.
#![tactic(auto)]

ghost use Rattle.std.specs.Prelude.{◌≡◌, ℕ, List};
ghost use Rattle.ledger_spec.specs.declared.Enrol.{Enrol};
ghost use Rattle.fleet_spec.specs.declared.Step.{Step};
ghost use Rattle.fleet_spec.specs.declared.Totals.{Totals};
ghost use Rattle.fleet_spec.specs.Fleet.{Came, HasNoPlan};

/// Where a script plans no power cut, it fixes what becomes of the fleet: the totals are a function of the devices that
/// are sold and of the steps. For a device has a choice only at a cut; its flash's count of faults is left open too, but
/// no total is made of it.
pub fn with_no_plan_the_script_fixes_the_totals()
    ensures { (next : List ℕ → ℕ → ℕ) (enrols : List Enrol) (steps : List Step) → HasNoPlan steps → (a b : Totals) →
        Came next enrols steps a → Came next enrols steps b → a ≡ b }
{}
