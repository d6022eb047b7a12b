// A case evaluated: its simulation where it is decided, else its envelope.
ghost use Rattle.std.specs.Prelude.{◌≡◌, length};
ghost use Rattle.cases.specs.Records.{SetCodes};
ghost use Rattle.evaluation.specs.Evaluation.{Evaluable};
ghost use Rattle.bounds.specs.Bounds.{CaseEvaluated};

use cases::sets;
use evaluation::Setting;
use sheet::Word;

// Draws the sheet of a case, and returns its upper number before the cap, which is the sheet's drop. No probe is simulated.
pub fn evaluate_case(
    setting: Setting<'_>,
    codes: &[u8; 64],
    sheet: &mut [Word],
    work: &mut [u8],
) -> u64
    requires { Evaluable setting sheet.old work.old × SetCodes setting.inputs codes.now }
    ensures { CaseEvaluated setting.entry codes.now result sheet.new }
{
    let decided = sets::is_decided(codes, setting.inputs);
    if decided {
        let simulated = simulator::evaluate_singles(setting, codes, sheet, work);
        return simulated.drop;
    }
    let enveloped = setting.evaluate(codes, sheet, work);
    enveloped.drop
}
