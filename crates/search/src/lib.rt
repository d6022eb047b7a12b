// The best-first search: it splits the case of the greatest upper number until the ceiling is exact, near enough, or the budget spent.
#![tactic(auto)]

ghost use Rattle.std.specs.Prelude.{◌≡◌, ◌+◌, ◌*◌, ◌≤◌, length};
ghost use Rattle.operation.specs.SplitOrder.{NetsListed};
ghost use Rattle.evaluation.specs.Evaluation.{Evaluable};
ghost use Rattle.search.specs.Search.{Searched};
ghost use Rattle.search.specs.Steps.{FirstMade, arguments_of, BlockSearched};

use block::{Counts, Refusal};
use bounds::{draw, make};
use cases::CaseNumber;
use evaluation::Setting;
use operation::Found;
use run::Limits;
use sheet::Word;

mod arguments;
mod run;
mod split;

// Above every upper number: the cap of the first case, which has no parent.
const NO_CAP: u64 = u64::MAX;

// Makes the first case, the whole frame. Returns the drop that the next probe has to reach.
fn make_first(
    setting: Setting<'_>,
    sheet: &mut [Word],
    pattern: &mut [u8],
    work: &mut [u8],
    store: &mut [u8],
) -> u64
    requires { Evaluable setting sheet.old work.old × (length pattern.old ≡ 64) × (72 ≤ length store.old) }
    ensures { FirstMade setting.entry store.old pattern.old result store.new pattern.new }
{
    let mut codes = [0u8; 64];
    block::frame_codes(setting.file, setting.inputs, &mut codes);
    make::make_case(
        setting,
        &codes,
        NO_CAP,
        0,
        CaseNumber(0),
        sheet,
        pattern,
        work,
        store,
    )
}

// Searches an accepted file, with arguments that passed.
// Form kept: the C interface lends sheet, pattern, work buffer and store one by one, and each function below takes those alone that it
// writes, so that its contract says of the others that they stay.
fn search_block(
    setting: Setting<'_>,
    limits: Limits,
    order: &[u8],
    sheet: &mut [Word],
    pattern: &mut [u8],
    work: &mut [u8],
    store: &mut [u8],
) -> Found
    requires { Evaluable setting sheet.old work.old × (length pattern.old ≡ 64) × NetsListed setting.inputs order.now × (72 * (1 + 3 * limits.budget) ≤ length store.old) }
    ensures { BlockSearched (arguments_of setting.entry limits.ratio limits.budget order.now sheet.old pattern.old work.old store.old) result sheet.new pattern.new store.new }
{
    let threshold = make_first(setting, sheet, pattern, work, store);
    let ended = run::run(
        setting, order, limits, threshold, sheet, pattern, work, store,
    );
    draw::draw_cases(setting, store, ended.cases, sheet, work);
    let quiet = sheet::quiet_tick(sheet, 512);
    let outcome = ended.outcome;
    Found {
        outcome,
        upper: ended.upper,
        lower: ended.lower,
        splits: ended.splits,
        cases: ended.cases as u64,
        quiet: quiet as u64,
    }
}

// Search: the checks in order, then the best-first search of the block's frame.
pub fn search(
    file: &[u8],
    hops: u64,
    table: &[u16],
    ratio: u64,
    budget: u64,
    order: &[u8],
    sheet: &mut [Word],
    pattern: &mut [u8],
    work: &mut [u8],
    store: &mut [u8],
) -> Result<Found, Refusal>
    ensures { Searched (record { file = file.now; hops = hops; table = table.now; ratio = ratio; budget = budget; order = order.now; sheet = sheet.old; pattern = pattern.old; work = work.old; store = store.old }) result sheet.new pattern.new work.new store.new }
{
    let Counts { nets, inputs } = block::read(file)?;
    arguments::check_arguments(
        nets,
        inputs,
        hops,
        table.len(),
        ratio,
        budget,
        order,
        sheet.len(),
        pattern.len(),
        work.len(),
        store.len(),
    )?;
    let setting = Setting {
        file,
        table,
        nets,
        inputs,
        hops: hops as usize,
    };
    let limits = Limits { ratio, budget };
    Ok(search_block(setting, limits, order, sheet, pattern, work, store))
}
