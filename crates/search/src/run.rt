// The search's loop: the checks before each split, and the split.
ghost use Rattle.std.specs.Prelude.{◌≡◌, ◌+◌, ◌*◌, ◌≤◌, ◌<◌, length};
ghost use Rattle.block.specs.Limits.{drop_limit};
ghost use Rattle.operation.specs.SplitOrder.{NetsListed};
ghost use Rattle.cases.specs.Probes.{ProbesCovered};
ghost use Rattle.evaluation.specs.Evaluation.{Evaluable};
ghost use Rattle.bounds.specs.Bounds.{pattern_drop};
ghost use Rattle.search.specs.Steps.{Running, state_in, EndsAt, Ran};

use super::split;
use cases::store;
use evaluation::Setting;
use operation::Outcome;
use sheet::Word;

// How a run ended: its outcome, U, L, how many cases were split and how many there are.
#[derive(Clone, Copy)]
pub struct RunEnd {
    pub outcome: Outcome,
    pub upper: u64,
    pub lower: u64,
    pub splits: u64,
    pub cases: usize,
}

// What a run is content with, short of an exact ceiling: a ratio, and a budget of splits.
#[derive(Clone, Copy)]
pub struct Limits {
    pub ratio: u64,
    pub budget: u64,
    pub ghost ratio_high: { ratio ≤ 10000 },
    pub ghost budget_high: { budget ≤ 10000 },
}

// A run that ended so.
fn ended(outcome: Outcome, upper: u64, lower: u64, splits: u64, cases: usize) -> RunEnd
    ensures { result ≡ record { outcome = outcome; upper = upper; lower = lower; splits = splits; cases = cases } }
{
    RunEnd {
        outcome,
        upper,
        lower,
        splits,
        cases,
    }
}

impl Limits {
    // The checks before a split, in order: how the run ends here, if it does.
    fn end_before_split(self, upper: u64, lower: u64, splits: u64, cases: usize) -> Option<RunEnd>
        requires { (upper < drop_limit) × (lower < drop_limit) }
        ensures { EndsAt upper lower splits cases self.ratio self.budget result }
    {
        if upper == lower {
            return Some(ended(Outcome::Exact, upper, lower, splits, cases));
        }
        if 1000 * upper <= self.ratio * lower {
            return Some(ended(Outcome::Within, upper, lower, splits, cases));
        }
        if splits == self.budget {
            return Some(ended(Outcome::Spent, upper, lower, splits, cases));
        }
        None
    }
}

// Runs the search from the first case on.
pub fn run(
    setting: Setting<'_>,
    order: &[u8],
    limits: Limits,
    threshold: u64,
    sheet: &mut [Word],
    pattern: &mut [u8],
    work: &mut [u8],
    store: &mut [u8],
) -> RunEnd
    requires { Evaluable setting sheet.old work.old × Running setting.inputs 1 threshold store.old pattern.old × NetsListed setting.inputs order.now × (72 * (1 + 3 * limits.budget) ≤ length store.old) × ProbesCovered (pattern_drop setting) (state_in setting.inputs 1 threshold store.old pattern.old) }
    ensures { Ran setting.entry order.now limits.ratio limits.budget (state_in setting.entry.inputs 1 threshold store.old pattern.old) store.old pattern.old result store.new pattern.new }
{
    let mut cases: usize = 1;
    let mut best = threshold;
    let mut splits: u64 = 0;
    // Form kept: the new form is no plainer: past a `for` over the splits would have to stand an end of the run that is never reached.
    loop {
        let k = store::argmax(store, cases);
        let upper = store::upper(store, k);
        let lower = best - 1;
        if let Some(end) = limits.end_before_split(upper, lower, splits, cases) {
            return end;
        }
        let step = split::split(
            setting, order, k, upper, cases, best, sheet, pattern, work, store,
        );
        cases = step.cases;
        best = step.threshold;
        splits += 1;
    }
}
