// The list by bounds: each undecided input of the whole frame is tried, and goes by the upper numbers of its children.
ghost use Rattle.std.specs.Prelude.{true, false, [], ◌∷◌, ◌≡◌, ◌+◌, ◌≤◌, ◌<◌, length, take, count_by};
ghost use Rattle.excitation.specs.Excitation.{byte_of};
ghost use Rattle.excitation.specs.UncertaintySet.{decode};
ghost use Rattle.block.specs.Verdict.{verdict};
ghost use Rattle.operation.specs.SplitOrder.{list_bytes};
ghost use Rattle.evaluation.specs.Evaluation.{HasRows, Evaluable};
ghost use Rattle.cases.specs.Case.{undecided};
ghost use Rattle.cases.specs.Records.{SetCodes};
ghost use Rattle.bounds.specs.Bounds.{upper_of};
ghost use Rattle.split_order.specs.Sorting.{four_of, KeysMade, SortsBy};
ghost use Rattle.split_order.specs.SplitOrder.{bound_order_checks, frame_order, BoundOrdered};
ghost use Rattle.split_order.specs.Trying.{decided_key, UntriedKey, TriedBelow, TriedKey, tighter_in};

use super::key::Four;
use super::sort;
use block::{Counts, Net, Refusal};
use bounds::evaluate;
use cases::sets;
use evaluation::Setting;
use excitation::{Excitation, Set};
use operation::{SplitOrder, arguments};
use sheet::Word;

// Above every upper number: the first number of a decided input, which follows all others.
const DECIDED: u64 = u64::MAX;

// How many inputs are undecided.
fn undecided_inputs(codes: &[u8], inputs: usize) -> usize
    requires { inputs ≤ length codes.now }
    ensures { result ≡ count_by (λ code. undecided (decode code)) (take inputs codes.now) }
{
    let codes = &codes[..inputs];
    codes
        .iter()
        .filter(|code| sets::is_undecided(**code))
        .count()
}

// The four numbers of an input that is not tried.
fn untried(code: u8) -> Four
    ensures { (undecided (decode code) ≡ true → four_of result ≡ 0 ∷ 0 ∷ 0 ∷ 0 ∷ []) × (undecided (decode code) ≡ false → four_of result ≡ decided_key) }
{
    if sets::is_undecided(code) {
        return Four::alone(0);
    }
    Four::alone(DECIDED)
}

// The numbers of the inputs where none is tried.
fn untried_keys(codes: &[u8; 64], inputs: usize) -> [Four; 64]
    requires { inputs ≤ 64 }
    ensures { KeysMade (UntriedKey codes.now) inputs result }
{
    let mut keys = [Four::alone(0); 64];
    for net in 0..inputs {
        keys[net] = untried(codes[net]);
    }
    keys
}

// Tries the child whose input has an excitation, where the frame's set allows it: puts its upper number among those of the
// children before it.
fn try_child(
    setting: Setting<'_>,
    frame: &[u8; 64],
    input: Net,
    e: Excitation,
    cap: u64,
    tried: Four,
    sheet: &mut [Word],
    work: &mut [u8],
) -> Four
    requires { Evaluable setting sheet.old work.old × SetCodes setting.inputs frame.now × (input.0 < setting.inputs) × (cap ≡ upper_of setting frame.now) × TriedBelow setting frame.now input.0 (byte_of e) tried }
    ensures { TriedBelow setting.entry frame.now input.0 (byte_of e + 1) result }
{
    let net = input.0;
    let set = Set { code: frame[net] };
    if !set.contains(e) {
        return tried;
    }
    let codes = sets::child_codes(frame, input, e);
    let own = evaluate::evaluate_case(setting, &codes, sheet, work);
    tried.put(cap.min(own))
}

// Tries an input of the frame: its children's upper numbers in falling order, filled with 0 to four. A decided one is not tried.
fn try_input(
    setting: Setting<'_>,
    frame: &[u8; 64],
    input: Net,
    cap: u64,
    sheet: &mut [Word],
    work: &mut [u8],
) -> Four
    requires { Evaluable setting sheet.old work.old × SetCodes setting.inputs frame.now × (input.0 < setting.inputs) × (cap ≡ upper_of setting frame.now) }
    ensures { TriedKey setting.entry frame.now input.0 (four_of result) }
{
    let net = input.0;
    if !sets::is_undecided(frame[net]) {
        return Four::alone(DECIDED);
    }
    let mut tried = Four::alone(0);
    for e in sets::EXCITATIONS {
        tried = try_child(setting, frame, input, e, cap, tried, sheet, work);
    }
    tried
}

// Tries every undecided input: the numbers of all. The sheet is scratch, and the call's own.
fn tried_keys(setting: Setting<'_>, frame: &[u8; 64], work: &mut [u8]) -> [Four; 64]
    requires { HasRows work.old setting.nets × SetCodes setting.inputs frame.now }
    ensures { KeysMade (TriedKey setting.entry frame.now) setting.entry.inputs result }
{
    let mut keys = [Four::alone(0); 64];
    let mut sheet: [Word; 8192] = [0; 8192];
    let cap = evaluate::evaluate_case(setting, frame, &mut sheet, work);
    for net in 0..setting.inputs {
        keys[net] = try_input(setting, frame, Net(net), cap, &mut sheet, work);
    }
    keys
}

// The numbers of the inputs. Of fewer than two undecided inputs none has to be tried.
fn bound_keys(setting: Setting<'_>, frame: &[u8; 64], work: &mut [u8]) -> [Four; 64]
    requires { HasRows work.old setting.nets × SetCodes setting.inputs frame.now }
    ensures { SortsBy (tighter_in setting.entry frame.now) setting.entry.inputs result }
{
    if undecided_inputs(frame, setting.inputs) < 2 {
        return untried_keys(frame, setting.inputs);
    }
    tried_keys(setting, frame, work)
}

// The list of an accepted file, with arguments that passed.
fn list_by_bounds(setting: Setting<'_>, work: &mut [u8]) -> [u8; 64]
    requires { HasRows work.old setting.nets }
    ensures { result ≡ list_bytes (frame_order setting.entry.file.now setting.entry.hops setting.entry.table.now) }
{
    let mut frame = [0u8; 64];
    block::frame_codes(setting.file, setting.inputs, &mut frame);
    let keys = bound_keys(setting, &frame, work);
    sort::sorted(&keys, setting.inputs)
}

// Checks 11, 12 and 15, place 3, by the lengths of what is lent.
#[tactic(auto, using(block::proofs::Verdicts::judging), unfolding(crate::specs::SplitOrder::bound_order_checks))]
fn check_arguments(nets: usize, hops: u64, table: usize, work: usize) -> Result<(), Refusal>
    ensures { result ≡ verdict (bound_order_checks nets hops table work) }
{
    arguments::check_hops(hops)?;
    arguments::check_table(table)?;
    arguments::check_work(nets, work)
}

// The second maker: the checks in order, then the list by bounds.
pub fn bound_order(
    file: &[u8],
    hops: u64,
    table: &[u16],
    work: &mut [u8],
) -> Result<SplitOrder, Refusal>
    ensures { BoundOrdered (record { file = file.now; hops = hops; table = table.now; work = work.old }) result work.new }
{
    let Counts { nets, inputs } = block::read(file)?;
    check_arguments(nets, hops, table.len(), work.len())?;
    let setting = Setting {
        file,
        table,
        nets,
        inputs,
        hops: hops as usize,
    };
    Ok(SplitOrder {
        inputs,
        nets: list_by_bounds(setting, work),
    })
}
