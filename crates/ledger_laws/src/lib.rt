//! Laws of the ledger over every run of commands, whichever keeper holds the tables and whatever fails.
#![tactic(auto)]

ghost use Rattle.std.specs.Prelude.{◌≡◌, ◌<◌, ◌≤◌, ◌↔◌, ℕ, true, nat_le, [], List, reverse, Option, Some, None, IfSome, Result};
ghost use Rattle.std.specs.List.{AllByRecursion};
ghost use Rattle.std.specs.Result.{result_ok};
ghost use Rattle.paygo_spec.specs.declared.Form.{Form};
ghost use Rattle.paygo_spec.specs.Searched.{IsClean};
ghost use Rattle.ledger_spec.specs.declared.Order.{Order};
ghost use Rattle.ledger_spec.specs.declared.Row.{Row};
ghost use Rattle.ledger_spec.specs.declared.Answer.{Answer};
ghost use Rattle.ledger_spec.specs.declared.LedgerFault.{LedgerFault};
ghost use Rattle.ledger_spec.specs.declared.Answer.TheVariants as answer_is;
ghost use Rattle.ledger_spec.specs.declared.Command.{Command};
ghost use Rattle.ledger_spec.specs.declared.Command.TheVariants as command_is;
ghost use Rattle.ledger_spec.specs.declared.PriceChange.{PriceChange};
ghost use Rattle.ledger_spec.specs.Tables.{Tables, no_tables, row_of, order_of, change_of, prices_for, price_at, Kept};
ghost use Rattle.ledger_spec.specs.Sorted.{orders_for};
ghost use Rattle.ledger_spec.specs.Replay.{account_from, account_of, no_account, orders_back, price_by};
ghost use Rattle.ledger_spec.specs.Issuing.{is_clean, pick};
ghost use Rattle.ledger_spec.specs.Keeper.{KeeperView};
ghost use Rattle.ledger_spec.specs.Applied.{Applies};
ghost use Rattle.ledger_spec.specs.Ledger.{done, stays, IsCommand};
ghost use Rattle.ledger_spec.specs.Sound.{Sound, StaysBelow, paid_by};
ghost use Rattle.ledger_spec.specs.Stuck.{stuck_at, stuck_below, kinds_for};
ghost use Rattle.ledger_spec.specs.declared.Kind.{Kind};
ghost use Rattle.paygo_spec.specs.declared.TheConstants.{LAST};
ghost use Rattle.ledger_spec.specs.Issuing.{is_near};
ghost use Rattle.paygo_spec.specs.declared.Entry.{Entry};
ghost use Rattle.paygo_spec.specs.Chain.{token_at};
ghost use Rattle.paygo_spec.specs.History.{Summary, top, limit_of, reach};
ghost use Rattle.ledger_laws.specs.Later.{GoesOn, Later, Asked, Runs};
ghost use Rattle.ledger_laws.specs.Quotes.{Foretells};
ghost use Rattle.ledger_laws.specs.Skipped.{OnlyAbove};

/// Each later answer to a command that was answered with an order is that order, and changes nothing.
#[tactic(auto, using(crate::proofs::Retries::again_after))]
pub fn orders_are_answered_again()
    ensures { (next : List ℕ → ℕ → ℕ) → StaysBelow next → (old later : Tables) (command : Command)
        (order : Order) (form : Form) (commands : List Command) (answers : List (Option Answer)) →
        Kept old → IsCommand command → (done next old command).answer ≡ answer_is.Order order form →
        Runs next (done next old command).tables commands answers later →
        done next later command ≡ stays later (answer_is.Order order form) }
{}

/// A command that finds the tables in order leaves them in order, with every order, device and change of a price that
/// there was.
pub fn commands_keep_orders()
    ensures { (next : List ℕ → ℕ → ℕ) → StaysBelow next → (tables : Tables) (command : Command) →
        IsCommand command → Kept tables →
        Kept (done next tables command).tables × Later tables (done next tables command).tables }
{}

/// An order that is kept stays kept, whatever is asked, and so does what its device was enrolled with: its key, its
/// starting code and its form. So the token that the shop told a customer stays the token of that order.
pub fn orders_stay_with_their_devices()
    ensures { (next : List ℕ → ℕ → ℕ) → StaysBelow next → (tables : Tables) (command : Command) →
        IsCommand command → Kept tables → (id : List ℕ) (order : Order) (row : Row) →
        order_of tables id ≡ Some order → row_of tables order.serial ≡ Some row →
        (order_of (done next tables command).tables id ≡ Some order)
        × ((now : Row) × (row_of (done next tables command).tables order.serial ≡ Some now) × GoesOn row now) }
{}

/// Two orders with one id are one order.
pub fn orders_of_one_id_are_one()
    ensures { (tables : Tables) (id other : List ℕ) (order second : Order) →
        order_of tables id ≡ Some order → order_of tables other ≡ Some second →
        order.id ≡ second.id → order ≡ second }
{}

/// A run of commands that begins with tables in order ends with tables in order, which have all orders and devices that
/// there were.
#[tactic(auto, using(crate::proofs::Laws::runs_keep))]
pub fn runs_keep_orders()
    ensures { (next : List ℕ → ℕ → ℕ) → StaysBelow next → (old new : Tables)
        (commands : List Command) (answers : List (Option Answer)) →
        Kept old → Runs next old commands answers new → Kept new × Later old new }
{}

/// A shop that begins with nothing in its tables begins with sound ones.
#[tactic(auto, using(crate::proofs::Laws::empty_sound))]
pub fn empty_tables_are_sound()
    ensures { (next : List ℕ → ℕ → ℕ) → Sound next no_tables }
{}

/// Each command leaves sound tables sound.
#[tactic(auto, using(crate::proofs::Laws::command_sound))]
pub fn commands_keep_tables_sound()
    ensures { (next : List ℕ → ℕ → ℕ) → StaysBelow next → (tables : Tables) (command : Command) →
        IsCommand command → Sound next tables → Sound next (done next tables command).tables }
{}

/// A run of commands that begins with sound tables ends with sound ones.
#[tactic(auto, using(crate::proofs::Laws::runs_sound))]
pub fn runs_keep_tables_sound()
    ensures { (next : List ℕ → ℕ → ℕ) → StaysBelow next → (old new : Tables)
        (commands : List Command) (answers : List (Option Answer)) →
        Sound next old → Runs next old commands answers new → Sound next new }
{}

/// A call of the ledger leaves the tables of its keeper sound, also where it fails.
#[tactic(auto, using(crate::proofs::Laws::calls_sound))]
pub fn calls_keep_tables_sound()
    ensures { (next : List ℕ → ℕ → ℕ) → StaysBelow next → (command : Command)
        (result : Result Answer LedgerFault) (old new : KeeperView) → IsCommand command →
        IfSome old.tables (Sound next) → Applies (λ t. done next t command) result old new →
        IfSome new.tables (Sound next) }
{}

/// A command that was answered with an order and is given again at once is answered with that order, and changes nothing.
#[tactic(auto, using(crate::proofs::Retries::again_at_once))]
pub fn orders_are_answered_at_once()
    ensures { (next : List ℕ → ℕ → ℕ) (tables : Tables) (command : Command)
        (order : Order) (form : Form) → Kept tables → IsCommand command →
        (done next tables command).answer ≡ answer_is.Order order form →
        done next (done next tables command).tables command
        ≡ stays (done next tables command).tables (answer_is.Order order form) }
{}

/// In sound tables two orders of one device with one token are one order.
pub fn tokens_of_a_device_differ()
    ensures { (next : List ℕ → ℕ → ℕ) (tables : Tables) → Sound next tables → (id other : List ℕ)
        (order second : Order) → order_of tables id ≡ Some order → order_of tables other ≡ Some second →
        order.serial ≡ second.serial → order.token ≡ second.token → order ≡ second }
{}

/// The test of a clean count says what is meant by it.
#[tactic(auto, using(crate::proofs::Laws::clean_is))]
pub fn clean_counts_are_clean()
    ensures { (next : ℕ → ℕ) (start value count : ℕ) →
        (is_clean next start value count ≡ true) ↔ IsClean next start count value }
{}

/// A call of the ledger over a keeper that tells its tables is a step of a run.
#[tactic(auto, using(crate::proofs::Laws::asked_by))]
pub fn calls_are_steps()
    ensures { (next : List ℕ → ℕ → ℕ) (command : Command) (result : Result Answer LedgerFault)
        (old new : KeeperView) (before : Tables) → old.tables ≡ Some before →
        Applies (λ t. done next t command) result old new →
        (after : Tables) × (new.tables ≡ Some after) × Asked next before command (result_ok result) after }
{}

/// An order that is answered is kept, and stays kept whatever is asked since.
#[tactic(auto, using(crate::proofs::Retries::answered_is_kept))]
pub fn answered_orders_are_kept()
    ensures { (next : List ℕ → ℕ → ℕ) (tables : Tables) (command : Command) (order : Order) (form : Form) →
        Kept tables → IsCommand command → (done next tables command).answer ≡ answer_is.Order order form →
        order_of (done next tables command).tables order.id ≡ Some order }
{}

/// In sound tables the orders of a device by rising count are the newest first, from behind. One after another they come
/// to what the row says: the sum paid, the rest, and whether it is closed.
pub fn rows_are_what_their_orders_come_to()
    ensures { (next : List ℕ → ℕ → ℕ) (tables : Tables) (serial : List ℕ) (row : Row) → Sound next tables →
        row_of tables serial ≡ Some row →
        (orders_for tables serial ≡ reverse (orders_back tables serial))
        × (account_from (price_by (prices_for tables serial) row) row.total no_account
        (orders_for tables serial) ≡ account_of row) }
{}

/// In sound tables each row's sum paid is what was paid with the orders of its device.
pub fn rows_hold_what_was_paid()
    ensures { (next : List ℕ → ℕ → ℕ) (tables : Tables) (serial : List ℕ) (row : Row) → Sound next tables →
        row_of tables serial ≡ Some row → row.paid ≡ paid_by tables.orders serial }
{}

/// Each later answer to a change of a price that was answered is that change, and changes nothing.
#[tactic(auto, using(crate::proofs::Repriced::priced_after))]
pub fn changes_are_answered_again()
    ensures { (next : List ℕ → ℕ → ℕ) → StaysBelow next → (old later : Tables) (serial : List ℕ)
        (from price : ℕ) (change : PriceChange) (commands : List Command) (answers : List (Option Answer)) →
        Kept old → IsCommand (command_is.Price serial from price) →
        (done next old (command_is.Price serial from price)).answer ≡ answer_is.Price change →
        Runs next (done next old (command_is.Price serial from price)).tables commands answers later →
        done next later (command_is.Price serial from price) ≡ stays later (answer_is.Price change) }
{}

/// In tables in order the price at a count is that of the row's change with the greatest `from` below the count.
pub fn the_last_change_is_the_price()
    ensures { (tables : Tables) (row : Row) (count from : ℕ) (change : PriceChange) → Kept tables →
        change_of tables row.serial from ≡ Some change → from < count →
        AllByRecursion (λ c. c.from < count → c.from ≤ from) (prices_for tables row.serial) →
        price_at tables row count ≡ change.price }
{}

/// Where no change of the row's price is from below a count on, the price there is the row's.
pub fn with_no_change_the_price_is_the_rows()
    ensures { (tables : Tables) (row : Row) (count : ℕ) →
        AllByRecursion (λ c. count ≤ c.from) (prices_for tables row.serial) →
        price_at tables row count ≡ row.price }
{}

/// A quote changes nothing. The payment that follows it under a new id, with no command between, gives the quoted order and
/// leaves the quoted rest; where the quote was refused, the payment is refused by the same answer.
#[tactic(auto, using(crate::proofs::Quoting::foretold))]
pub fn quotes_foretell_payments()
    ensures still { (next : List ℕ → ℕ → ℕ) (tables : Tables) (serial : List ℕ) (amount : ℕ) →
        (done next tables (command_is.Quote serial amount)).tables ≡ tables }
    ensures foretold { (next : List ℕ → ℕ → ℕ) (tables : Tables) (id serial : List ℕ) (amount : ℕ) →
        Kept tables → IsCommand (command_is.Quote serial amount) → order_of tables id ≡ None →
        Foretells tables serial (done next tables (command_is.Quote serial amount)).answer
        (done next tables (command_is.Pay id serial amount)) }
{}

/// A quoted count is near exactly where a device that has the row's last count and limit has it in reach.
pub fn near_counts_are_in_reach()
    ensures { (start : Summary) (entries : List Entry) (limit last value count : ℕ) →
        limit_of start entries ≡ limit → top start entries ≡ last →
        is_near limit last value count ≡ nat_le count (reach start entries value) }
{}

/// Behind a skip that was answered by a row, no count up to its own is ever issued for the device again: each order of the
/// device that later tables have was there before the skip, or its count is above.
pub fn skipped_counts_are_never_issued()
    ensures { (next : List ℕ → ℕ → ℕ) → StaysBelow next → (old later : Tables) (serial : List ℕ) (to : ℕ)
        (row : Row) (commands : List Command) (answers : List (Option Answer)) →
        Kept old → IsCommand (command_is.Skip serial to) →
        (done next old (command_is.Skip serial to)).answer ≡ answer_is.Row row →
        Runs next (done next old (command_is.Skip serial to)).tables commands answers later →
        OnlyAbove to serial old later }
{}

/// And no token of those counts, of whatever value, is ever sold again: so where a shop lost its newest orders and skips their
/// counts, each token that it sells from then on is another one than each that it ever sold.
pub fn skipped_tokens_are_never_sold()
    ensures { (next : List ℕ → ℕ → ℕ) → StaysBelow next → (old later : Tables) (serial : List ℕ) (to : ℕ)
        (row : Row) (commands : List Command) (answers : List (Option Answer)) →
        Sound next old → IsCommand (command_is.Skip serial to) →
        (done next old (command_is.Skip serial to)).answer ≡ answer_is.Row row →
        Runs next (done next old (command_is.Skip serial to)).tables commands answers later →
        (id : List ℕ) (order : Order) → order_of later id ≡ Some order → order.serial ≡ serial →
        (order_of old id ≡ Some order → ⊥) → (count value : ℕ) → count ≤ to → value ≤ 999 →
        token_at (next row.key) row.start value count ≡ order.token → ⊥ }
{}

/// Where nothing is listed as stuck up to a limit, no value of any kind is, and what isn't stuck is sold in the reach of a
/// device whose last count is any up to the limit.
pub fn unlisted_values_are_sold()
    ensures free { (next : ℕ → ℕ) (start limit bound : ℕ) → stuck_below next start limit bound ≡ [] →
        (value : ℕ) → value < bound →
        AllByRecursion (λ kind. stuck_at next start limit kind value ≡ None) (kinds_for value) }
    ensures near { (next : ℕ → ℕ) (start limit : ℕ) (kind : Kind) (value : ℕ) →
        stuck_at next start limit kind value ≡ None → (last : ℕ) → last ≤ limit →
        (count : ℕ) × (pick next start LAST last kind value ≡ Some count) × (is_near LAST last value count ≡ true) }
{}
