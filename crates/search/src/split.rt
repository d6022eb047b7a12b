// A case split: its children made, one for each excitation that its set at the chosen input allows.
ghost use Rattle.std.specs.Prelude.{◌≡◌, ◌+◌, ◌*◌, ◌≤◌, ◌<◌, max, length};
ghost use Rattle.block.specs.Limits.{drop_limit};
ghost use Rattle.operation.specs.SplitOrder.{NetsListed};
ghost use Rattle.cases.specs.Probes.{ProbesCovered};
ghost use Rattle.cases.specs.Records.{HasCase, SetCodes};
ghost use Rattle.evaluation.specs.Evaluation.{Evaluable};
ghost use Rattle.bounds.specs.Bounds.{pattern_drop, probe_drop};
ghost use Rattle.search.specs.Steps.{state_in, ChildMade, Running, CaseToSplit, CaseSplit};

use block::Net;
use bounds::make;
use cases::{CaseNumber, choice, sets, store};
use evaluation::Setting;
use excitation::{Excitation, Set};
use sheet::Word;

// Where a split stands: how many cases there are, the place of the next child, and the drop that makes a probe the best.
#[derive(Clone, Copy)]
pub struct Step {
    pub cases: usize,
    pub next: CaseNumber,
    pub threshold: u64,
}

impl Step {
    // Once a child is made at the next place: the one after it comes past the cases.
    fn child_made(self, threshold: u64) -> Step
        requires { self.next.0 ≤ 30000 }
        ensures { result ≡ record { cases = max (self.next.0 + 1) self.cases; next = record { 0 = max (self.next.0 + 1) self.cases }; threshold = threshold } }
    {
        let cases = self.cases.max(self.next.0 + 1);
        Step {
            cases,
            next: CaseNumber(cases),
            threshold,
        }
    }
}

// Makes the child whose input has an excitation, where the parent's set allows it. The child of the first allowed has its
// parent's probe, whose drop is known to be below the threshold.
fn make_child(
    setting: Setting<'_>,
    parent: &[u8; 64],
    input: Net,
    e: Excitation,
    cap: u64,
    step: Step,
    sheet: &mut [Word],
    pattern: &mut [u8],
    work: &mut [u8],
    store: &mut [u8],
) -> Step
    requires { Evaluable setting sheet.old work.old × SetCodes setting.inputs parent.now × (input.0 < setting.inputs) × (length pattern.old ≡ 64) × HasCase store.old step.next.0 × (step.threshold ≤ drop_limit) × (probe_drop setting parent.now < step.threshold) }
    ensures { ChildMade setting.entry parent.now input.0 e cap step store.old pattern.old result store.new pattern.new }
{
    let net = input.0;
    let code = parent[net];
    let set = Set { code };
    if !set.contains(e) {
        return step;
    }
    let codes = sets::child_codes(parent, input, e);
    let known = sets::is_first_allowed(code, e);
    if known {
        make::bound_case(setting, &codes, cap, step.next, sheet, work, store);
        return step.child_made(step.threshold);
    }
    let threshold = make::make_case(
        setting,
        &codes,
        cap,
        step.threshold,
        step.next,
        sheet,
        pattern,
        work,
        store,
    );
    step.child_made(threshold)
}

// Splits case k, the first of the greatest upper number, which is the cap of its children.
pub fn split(
    setting: Setting<'_>,
    order: &[u8],
    k: CaseNumber,
    cap: u64,
    n: usize,
    threshold: u64,
    sheet: &mut [Word],
    pattern: &mut [u8],
    work: &mut [u8],
    store: &mut [u8],
) -> Step
    requires { Evaluable setting sheet.old work.old × Running setting.inputs n threshold store.old pattern.old × CaseToSplit setting.inputs n store.old k.0 cap × NetsListed setting.inputs order.now × (72 * (n + 3) ≤ length store.old) × (n + 3 ≤ 30001) × ProbesCovered (pattern_drop setting) (state_in setting.inputs n threshold store.old pattern.old) }
    ensures { CaseSplit setting.entry order.now n threshold store.old pattern.old result.cases result.threshold store.new pattern.new }
{
    let parent = store::read_sets(store, k);
    let input = choice::choose(&parent, setting.inputs, order);
    let mut step = Step {
        cases: n,
        next: k,
        threshold,
    };
    for e in sets::EXCITATIONS {
        step = make_child(
            setting, &parent, input, e, cap, step, sheet, pattern, work, store,
        );
    }
    step
}
