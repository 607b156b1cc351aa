// What agents and their shop can rely on.
ghost use Rattle.std.specs.Prelude.{◌≡◌, ◌++◌, ℕ, List};
ghost use Rattle.ledger_spec.specs.Tables.{Tables};
ghost use Rattle.sheet_loop.specs.Office.{Office, behind, answers_to};
ghost use Rattle.sheet_loop.specs.Sheets.{opened};
ghost use Rattle.sheet_loop.specs.Counting.{CountsTokens, ReportSales, SameLines, last_behind};

/// Agents may report in any order, and as often as they like: behind the same first lines, two inputs that report the same
/// sales have the same last word.
pub fn order_and_repeats_do_not_matter()
    ensures { (next : List ℕ → ℕ → ℕ) (office : Office) (first xs ys : List (List ℕ)) → ReportSales xs →
        ReportSales ys → SameLines xs ys →
        last_behind next (first ++ xs) office ≡ last_behind next (first ++ ys) office }
{}

/// No token is counted twice: the last word counts places of sheets of which a sale was reported, each of them once, and
/// each of them has an order of the shop, which no other place has.
pub fn no_token_is_counted_twice()
    ensures { (next : List ℕ → ℕ → ℕ) (tables : Tables) (lines : List (List ℕ)) →
        CountsTokens (behind (opened tables) (answers_to next lines (opened tables))) }
{}
