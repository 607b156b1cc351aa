// Sales, and what is kept of those that were reported of one place.
ghost use Rattle.std.specs.Prelude.{◌≡◌, not, ◌||◌, Some};
ghost use Rattle.sheet_book.specs.Reports.{lesser, sale_before, same_sale};

use ledger_spec::Name;

/// A sale of a token.
#[derive(Clone, Copy, Debug)]
pub struct Sale {
    /// Its name.
    pub name: Name,
    /// The money that was taken for it.
    pub money: u64,
}

/// What is kept of a place.
#[derive(Clone, Copy, Debug)]
pub struct Kept {
    /// The least sale that was reported.
    pub sale: Sale,
    /// Whether two reports differ.
    pub disputed: bool,
}

/// What all reports come to.
#[derive(Clone, Copy, Debug, PartialEq, Eq)]
pub struct Totals {
    /// How many tokens were sold: of how many places there is a report.
    pub tokens: u64,
    /// The sum of the money that was taken for them.
    pub money: u128,
    /// Of how many places two reports differ.
    pub disputes: u64,
}

impl Sale {
    fn same(&self, other: &Sale) -> bool
        ensures { result ≡ same_sale self.now other.now }
    {
        self.name.same(&other.name) && self.money == other.money
    }

    fn before(&self, other: &Sale) -> bool
        ensures { result ≡ sale_before self.now other.now }
    {
        self.name.before(&other.name) || (self.name.same(&other.name) && self.money < other.money)
    }
}

impl Kept {
    /// The sale that counts, and its money, as a report is answered.
    pub(crate) fn answer(&self) -> (Name, u64)
        ensures name { result.0 ≡ self.now.sale.name }
        ensures money { result.1 ≡ self.now.sale.money }
    {
        (self.sale.name, self.sale.money)
    }

    /// The money of the sale that counts.
    pub(crate) fn money(&self) -> u64
        ensures { result ≡ self.now.sale.money }
    {
        self.sale.money
    }

    /// What is kept after one more report of the place.
    pub(crate) fn with(&self, sale: &Sale) -> Kept
        ensures sale { result.sale ≡ lesser sale.now (Some self.now.sale) }
        ensures disputed { result.disputed ≡ (not (same_sale sale.now self.now.sale) || self.now.disputed) }
    {
        let least = if sale.before(&self.sale) {
            *sale
        } else {
            self.sale
        };
        Kept {
            sale: least,
            disputed: !sale.same(&self.sale) || self.disputed,
        }
    }
}
