// Simulate: the currents of one pattern.
#![tactic(auto)]

ghost use Rattle.std.specs.Prelude.{◌≡◌, ◌≤◌, length};
ghost use Rattle.block.specs.Verdict.{verdict};
ghost use Rattle.evaluation.specs.Evaluation.{InputCodes, Evaluable, Evaluated};
ghost use Rattle.simulator.specs.Simulate.{size_checks, pattern_sheet, PatternCodes, SinglesEvaluated, Simulated};

use block::{Counts, Refusal};
use evaluation::Setting;
use excitation::Excitation;
use operation::{Currents, arguments, pattern};
use sheet::Word;

// More hops than 256 ticks can have runs: nothing is filled.
const UNLIMITED: usize = 128;

// Checks 12 and 15, in order.
#[tactic(auto, using(block::proofs::Verdicts::judging), unfolding(crate::specs::Simulate::size_checks))]
fn check_sizes(
    nets: usize,
    table: usize,
    sheet: usize,
    pattern: usize,
    work: usize,
) -> Result<(), Refusal>
    ensures { result ≡ verdict (size_checks nets table sheet pattern work) }
{
    arguments::check_table(table)?;
    arguments::check_sheet(sheet)?;
    arguments::check_pattern_length(pattern)?;
    arguments::check_work(nets, work)
}

// The codes of a pattern's excitations as sets.
fn pattern_codes(pattern: &[u8], inputs: usize) -> [u8; 64]
    requires { (inputs ≤ 64) × (length pattern.now ≡ 64) }
    ensures { PatternCodes inputs pattern.now result }
{
    let mut codes = [0u8; 64];
    for net in 0..inputs {
        codes[net] = excitation::single(Excitation::from(pattern[net])).code;
    }
    codes
}

// The simulation of a block's pattern, given by the codes of its single sets: its sheet, drop and quiet tick. The setting's hop limit is
// not looked at.
pub fn evaluate_singles(
    setting: Setting<'_>,
    codes: &[u8],
    sheet: &mut [Word],
    work: &mut [u8],
) -> Currents
    requires { Evaluable setting sheet.old work.old × InputCodes setting.inputs codes.now }
    ensures { SinglesEvaluated setting.entry codes.now result sheet.new }
{
    let unfilled = Setting {
        file: setting.file,
        table: setting.table,
        nets: setting.nets,
        inputs: setting.inputs,
        hops: UNLIMITED,
    };
    unfilled.evaluate(codes, sheet, work)
}

// The simulation of a block's pattern.
fn evaluate_pattern(
    setting: Setting<'_>,
    sheet: &mut [Word],
    pattern: &[u8],
    work: &mut [u8],
) -> Currents
    requires { Evaluable setting sheet.old work.old × (length pattern.now ≡ 64) }
    ensures { Evaluated setting.entry.table.now (pattern_sheet setting.entry.file.now pattern.now) result sheet.new }
{
    let codes = pattern_codes(pattern, setting.inputs);
    evaluate_singles(setting, &codes, sheet, work)
}

// Simulate: the checks in order, then the sheet, drop and quiet tick of the pattern.
pub fn simulate(
    file: &[u8],
    table: &[u16],
    sheet: &mut [Word],
    pattern: &[u8],
    work: &mut [u8],
) -> Result<Currents, Refusal>
    ensures { Simulated (record { file = file.now; table = table.now; sheet = sheet.old; pattern = pattern.now; work = work.old }) result sheet.new work.new }
{
    let Counts { nets, inputs } = block::read(file)?;
    check_sizes(nets, table.len(), sheet.len(), pattern.len(), work.len())?;
    pattern::check_pattern(file, inputs, pattern)?;
    let setting = Setting {
        file,
        table,
        nets,
        inputs,
        hops: UNLIMITED,
    };
    Ok(evaluate_pattern(setting, sheet, pattern, work))
}
