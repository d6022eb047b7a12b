// Checks 11 to 15, in order, with 19 after 14.
ghost use Rattle.std.specs.Prelude.{◌≡◌};
ghost use Rattle.block.specs.Verdict.{verdict};
ghost use Rattle.search.specs.Search.{argument_checks};

use block::Refusal;
use operation::{arguments, split_order};

// The checks, by the lengths of what is lent and by the list of inputs.
#[tactic(auto, using(block::proofs::Verdicts::judging), unfolding(crate::specs::Search::argument_checks))]
pub fn check_arguments(
    nets: usize,
    inputs: usize,
    hops: u64,
    table: usize,
    ratio: u64,
    budget: u64,
    order: &[u8],
    sheet: usize,
    pattern: usize,
    work: usize,
    store: usize,
) -> Result<(), Refusal>
    ensures { result ≡ verdict (argument_checks nets inputs hops table ratio budget order.now sheet pattern work store) }
{
    arguments::check_hops(hops)?;
    arguments::check_table(table)?;
    arguments::check_ratio(ratio)?;
    arguments::check_budget(budget)?;
    split_order::check_order(inputs, order)?;
    arguments::check_sheet(sheet)?;
    arguments::check_pattern_length(pattern)?;
    arguments::check_work(nets, work)?;
    arguments::check_store(budget, store)
}
