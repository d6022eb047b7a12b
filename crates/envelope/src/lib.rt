// Envelope: a ceiling on the current at each contact and tick, for every pattern of the frame.
#![tactic(auto)]

ghost use Rattle.std.specs.Prelude.{◌≡◌};
ghost use Rattle.block.specs.Verdict.{verdict};
ghost use Rattle.evaluation.specs.Evaluation.{Evaluable, Evaluated};
ghost use Rattle.envelope.specs.Envelope.{argument_checks, frame_sheet, Enveloped};

use block::{Counts, Refusal};
use evaluation::Setting;
use operation::{Currents, arguments};
use sheet::Word;

// Checks 11, 12 and 15, in order.
#[tactic(auto, using(block::proofs::Verdicts::judging), unfolding(crate::specs::Envelope::argument_checks))]
fn check_arguments(
    nets: usize,
    hops: u64,
    table: usize,
    sheet: usize,
    work: usize,
) -> Result<(), Refusal>
    ensures { result ≡ verdict (argument_checks nets hops table sheet work) }
{
    arguments::check_hops(hops)?;
    arguments::check_table(table)?;
    arguments::check_sheet(sheet)?;
    arguments::check_work(nets, work)
}

// The envelope of a block's frame.
fn evaluate_frame(setting: Setting<'_>, sheet: &mut [Word], work: &mut [u8]) -> Currents
    requires { Evaluable setting sheet.old work.old }
    ensures { Evaluated setting.entry.table.now (frame_sheet setting.entry.hops setting.entry.file.now) result sheet.new }
{
    let mut codes = [0u8; 64];
    block::frame_codes(setting.file, setting.inputs, &mut codes);
    setting.evaluate(&codes, sheet, work)
}

// Envelope: the checks in order, then the sheet, drop and quiet tick of the frame.
pub fn envelope(
    file: &[u8],
    hops: u64,
    table: &[u16],
    sheet: &mut [Word],
    work: &mut [u8],
) -> Result<Currents, Refusal>
    ensures { Enveloped (record { file = file.now; hops = hops; table = table.now; sheet = sheet.old; work = work.old }) result sheet.new work.new }
{
    let Counts { nets, inputs } = block::read(file)?;
    check_arguments(nets, hops, table.len(), sheet.len(), work.len())?;
    let setting = Setting {
        file,
        table,
        nets,
        inputs,
        hops: hops as usize,
    };
    Ok(evaluate_frame(setting, sheet, work))
}
