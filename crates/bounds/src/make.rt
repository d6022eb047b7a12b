// A case made: its probe simulated, its upper number found, and its record written.
// Form kept: the C interface lends sheet and work buffer one by one, and a struct of the two is no plainer: `draw_cases` and `tried_keys`
// would build another one for the sheet of their own, and every contract would still name both buffers.
ghost use Rattle.std.specs.Prelude.{◌≡◌, ◌<◌, length};
ghost use Rattle.block.specs.Limits.{drop_limit};
ghost use Rattle.cases.specs.Records.{HasCase, SetCodes};
ghost use Rattle.evaluation.specs.Evaluation.{Evaluable};
ghost use Rattle.bounds.specs.Bounds.{probe_drop, upper_of, CaseBounded, CaseMade};

use super::evaluate;
use cases::{CaseNumber, sets, store};
use evaluation::Setting;
use sheet::Word;

// The drop of a case's probe.
fn probe_drop(setting: Setting<'_>, codes: &[u8; 64], sheet: &mut [Word], work: &mut [u8]) -> u64
    requires { Evaluable setting sheet.old work.old }
    ensures { (result ≡ probe_drop setting.entry codes.now) × (result < drop_limit) }
{
    let singles = sets::probe_codes(codes, setting.inputs);
    let currents = simulator::evaluate_singles(setting, &singles, sheet, work);
    currents.drop
}

// The upper number of a case before the cap, from the drop of its probe.
fn own_upper(
    setting: Setting<'_>,
    codes: &[u8; 64],
    drop: u64,
    sheet: &mut [Word],
    work: &mut [u8],
) -> u64
    requires { Evaluable setting sheet.old work.old × SetCodes setting.inputs codes.now × (drop ≡ probe_drop setting codes.now) × (drop < drop_limit) }
    ensures { (result ≡ upper_of setting.entry codes.now) × (result < drop_limit) }
{
    let decided = sets::is_decided(codes, setting.inputs);
    if decided {
        return drop;
    }
    let currents = setting.evaluate(codes, sheet, work);
    currents.drop
}

// Bounds a case whose probe is known to be no better than the best: writes its record. The probe is simulated only where the case is
// decided, for its upper number.
pub fn bound_case(
    setting: Setting<'_>,
    codes: &[u8; 64],
    cap: u64,
    at: CaseNumber,
    sheet: &mut [Word],
    work: &mut [u8],
    store: &mut [u8],
)
    requires { Evaluable setting sheet.old work.old × SetCodes setting.inputs codes.now × HasCase store.old at.0 }
    ensures { CaseBounded setting.entry codes.now cap at.0 store.old store.new }
{
    let upper = evaluate::evaluate_case(setting, codes, sheet, work);
    store::write_case(store, at, codes, cap.min(upper));
}

// Makes a case: writes its record and, where its probe's drop reaches the threshold, its probe. Returns the drop that the next probe has
// to reach.
pub fn make_case(
    setting: Setting<'_>,
    codes: &[u8; 64],
    cap: u64,
    threshold: u64,
    at: CaseNumber,
    sheet: &mut [Word],
    pattern: &mut [u8],
    work: &mut [u8],
    store: &mut [u8],
) -> u64
    requires { Evaluable setting sheet.old work.old × SetCodes setting.inputs codes.now × (length pattern.old ≡ 64) × HasCase store.old at.0 }
    ensures { CaseMade setting.entry codes.now cap threshold at.0 store.old pattern.old result store.new pattern.new }
{
    let drop = probe_drop(setting, codes, sheet, work);
    let own = own_upper(setting, codes, drop, sheet, work);
    store::write_case(store, at, codes, cap.min(own));
    if drop < threshold {
        return threshold;
    }
    sets::write_probe(codes, setting.inputs, pattern);
    drop + 1
}
