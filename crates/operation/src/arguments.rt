// Checks 11 to 15, each of one argument.
ghost use Rattle.std.specs.Prelude.{◌≡◌, ◌∷◌, []};
ghost use Rattle.block.specs.Verdict.{verdict};
ghost use Rattle.operation.specs.Arguments.{hops_check, table_check, ratio_check, budget_check, sheet_check, pattern_check, work_check, store_check};

use block::{Reason, Refusal, check, in_range};

// Check 11, of the hop limit.
pub fn check_hops(hops: u64) -> Result<(), Refusal>
    ensures { result ≡ verdict (hops_check hops ∷ []) }
{
    check(Reason::WrongHopLimit, 0, in_range(hops as usize, 1, 16))
}

// Check 12, of a table of n resistances.
pub fn check_table(n: usize) -> Result<(), Refusal>
    ensures { result ≡ verdict (table_check n ∷ []) }
{
    check(Reason::WrongTable, 0, in_range(n, 16, 256) & (n % 16 == 0))
}

// Check 13, of the ratio.
pub fn check_ratio(ratio: u64) -> Result<(), Refusal>
    ensures { result ≡ verdict (ratio_check ratio ∷ []) }
{
    check(Reason::WrongRatio, 0, in_range(ratio as usize, 1000, 10000))
}

// Check 14, of the budget.
pub fn check_budget(budget: u64) -> Result<(), Refusal>
    ensures { result ≡ verdict (budget_check budget ∷ []) }
{
    check(Reason::WrongBudget, 0, budget <= 10000)
}

// Check 15, place 1, of a sheet of n words.
pub fn check_sheet(n: usize) -> Result<(), Refusal>
    ensures { result ≡ verdict (sheet_check n ∷ []) }
{
    check(Reason::WrongBuffer, 1, n == 8192)
}

// Check 15, place 2, of a pattern of n bytes.
pub fn check_pattern_length(n: usize) -> Result<(), Refusal>
    ensures { result ≡ verdict (pattern_check n ∷ []) }
{
    check(Reason::WrongBuffer, 2, n == 64)
}

// Check 15, place 3, of a work buffer of n bytes. No product is formed: it could overflow.
pub fn check_work(nets: usize, n: usize) -> Result<(), Refusal>
    ensures { result ≡ verdict (work_check nets n ∷ []) }
{
    check(Reason::WrongBuffer, 3, nets <= n / 160)
}

// Check 15, place 4, of a case store of n bytes: it holds n / 72 records, which have to be more than 3 for each split of the budget.
pub fn check_store(budget: u64, n: usize) -> Result<(), Refusal>
    ensures { result ≡ verdict (store_check budget n ∷ []) }
{
    let records = n / 72;
    check(Reason::WrongBuffer, 4, budget < ((records + 2) / 3) as u64)
}
