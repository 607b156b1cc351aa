// The book of the sales that agents reported.
ghost use Rattle.std.specs.Prelude.{◌≡◌, IfOk, IsOkAnd, OnErr, List, [], ◌∷◌, Some};
ghost use Rattle.std.specs.BTreeMap.{get};
ghost use Rattle.sheet_book.specs.Reports.{Report, key_at, report_of, least, sales_of, totals_of};
ghost use Rattle.sheet_book.specs.KeyOrder.{key_cmp};
ghost use Rattle.sheet_book.specs.Books.{StandsFor, KeepsSame, kept_with};

use crate::places::Key;
use crate::sales::{Kept, Sale, Totals};
use ledger_spec::Name;
use paygo_spec::Memory;
use std::alloc::Global;
use std::collections::BTreeMap;

/// The sales that agents reported of the tokens on their sheets. It keeps each place with a report once, however many
/// reports there were of it, and finds it by a search among the places in their order.
#[derive(Drop)]
pub struct Book {
    places: BTreeMap<Key, Kept>,
}

impl Book {
    /// A book with no report. It takes no memory yet, so that it is always made.
    pub fn new(alloc: Global) -> Result<Book, Memory>
        ensures { IsOkAnd result (λ book. StandsFor book []) }
    {
        Ok(Book {
            places: BTreeMap::new(alloc),
        })
    }

    /// What is kept of a place after one more report.
    fn kept_with(&self, key: &Key, sale: &Sale) -> Kept
        ensures { result ≡ kept_with sale.now (get key_cmp self.now.places key.now) }
    {
        match self.places.get(key) {
            Some(kept) => kept.with(sale),
            None => Kept {
                sale: *sale,
                disputed: false,
            },
        }
    }

    /// An agent reports a sale of the token at a place of a sheet, for this much money. Any sheet, place, sale and
    /// money may be reported, in any order, and as often as the agent likes. The answer is the sale that counts, and
    /// its money: the least of those that were reported of the place, this one among them, by the bytes of its name
    /// and then by its money.
    ///
    /// # Errors
    ///
    /// `Memory`: there was none for the first report of a place. The book is as before.
    pub fn report(
        &mut self,
        sheet: &Name,
        place: u8,
        sale: &Name,
        money: u64,
    ) -> Result<(Name, u64), Memory>
        ensures stands { IfOk result (λ kept. (reports : List Report) → StandsFor self.old reports →
            StandsFor self.new (report_of sheet.now place sale.now money ∷ reports)) }
        ensures kept { IfOk result (λ kept. (reports : List Report) → StandsFor self.new reports →
            least (sales_of (key_at sheet.now place) reports) ≡ Some (record { name = kept.0; money = kept.1 })) }
        ensures first { OnErr result ((reports : List Report) → StandsFor self.old reports →
            sales_of (key_at sheet.now place) reports ≡ []) }
        ensures memory { OnErr result (KeepsSame self.old self.new) }
    {
        let key = Key {
            sheet: *sheet,
            place,
        };
        let sale = Sale { name: *sale, money };
        let kept = self.kept_with(&key, &sale);
        let answer = kept.answer();
        match self.places.insert(key, kept) {
            Ok(_) => Ok(answer),
            Err(_) => Err(Memory),
        }
    }

    /// What all reports come to: how many tokens were sold, for how much money, and of how many of them two reports
    /// differ. A token is counted once, with the sale that counts.
    pub fn totals(&self) -> Totals
        ensures { (reports : List Report) → StandsFor self.now reports → result ≡ totals_of reports }
    {
        let mut money = 0;
        let mut disputes = 0;
        for kept in self.places.values() {
            money += u128::from(kept.money());
            disputes += u64::from(kept.disputed);
        }
        Totals {
            tokens: self.places.len() as u64,
            money,
            disputes,
        }
    }
}
