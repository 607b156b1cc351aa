// What agents report of the tokens that they sold from sheets: neither the order of the reports nor a repeat matters.
#![tactic(auto)]

ghost use Rattle.std.specs.Prelude.{◌≡◌, List};
ghost use Rattle.sheet_book.specs.declared.places.Key.{Key};
ghost use Rattle.sheet_book.specs.Reports.{Report, SameReports, AreReportedOnce};
ghost use Rattle.sheet_book.specs.Reports.{keys_of, totals_at, totals_of};

mod book;
mod places;
mod sales;

pub use book::Book;
// What the contracts speak of.
pub use places::Key;
pub use sales::{Kept, Sale, Totals};

/// The totals are those of the set of the reports: their order doesn't matter, and a repeat changes nothing.
pub fn order_and_repeats_do_not_matter()
    ensures { (xs ys : List Report) → SameReports xs ys → totals_of xs ≡ totals_of ys }
{}

/// No token is counted twice, and none is forgotten: the totals go over the places of which there is a report, each of
/// them once. They are the same over every list of those places that has each of them once.
pub fn no_token_is_counted_twice()
    ensures each { (reports : List Report) → AreReportedOnce (keys_of reports) reports }
    ensures any { (keys : List Key) (reports : List Report) → AreReportedOnce keys reports →
        totals_of reports ≡ totals_at keys reports }
{}

#[cfg(test)]
mod tests;
