// What the list of what is wrong says.
ghost use Rattle.std.specs.Prelude.{◌≡◌, ◌↔◌, ℕ, List, [], Some};
ghost use Rattle.ledger_spec.specs.declared.Row.{Row};
ghost use Rattle.ledger_spec.specs.Tables.{Tables, Kept, row_of};
ghost use Rattle.ledger_spec.specs.Sorted.{all_rows};
ghost use Rattle.ledger_spec.specs.Sound.{Sound};
ghost use Rattle.table_flaws.specs.Flaws.{flaws};
ghost use Rattle.table_flaws.specs.Found.{twins};

/// In tables that are in order nothing is wrong exactly where they are sound. A keeper tells only such tables: so of
/// what it tells, the list is empty exactly where the ledger's promises on sound tables hold.
pub fn sound_tables_have_no_flaw()
    ensures { (next : List ℕ → ℕ → ℕ) (tables : Tables) → Kept tables →
        (flaws next tables ≡ []) ↔ Sound next tables }
{}

/// Where a check finds no twins, no two devices have one key and one starting code: two rows that have them are one.
pub fn no_twins_no_shared_chain()
    ensures { (tables : Tables) → twins (all_rows tables) ≡ [] →
        (one other : Row) → row_of tables one.serial ≡ Some one → row_of tables other.serial ≡ Some other →
        one.key ≡ other.key → one.start ≡ other.start → one ≡ other }
{}
