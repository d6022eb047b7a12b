// The quiet tick of a sheet, looked for in the sheet itself, tick by tick downwards, from a tick from which on nothing flows.
ghost use Rattle.std.specs.Prelude.{◌≡◌, ◌<◌, length};
ghost use Rattle.sheet.specs.Quiet.{QuietFrom};
ghost use Rattle.sheet.specs.Sheet.{sheet_in, flows_at, quiet_tick};

use super::Word;

// Whether some row of a sheet is not 0 at tick t.
fn flows_at(sheet: &[Word], t: usize) -> bool
    requires { (length sheet.now ≡ 8192) × (t < 512) }
    ensures { result ≡ flows_at (sheet_in sheet.now) t }
{
    (0..16).any(|contact| sheet[512 * contact + t] != 0)
}

// The last tick at which some row of a sheet is not 0, and 0 for an empty sheet, where the sheet has no current from tick `stop` on.
#[tactic(auto, unfolding(laws::specs::Below::last_below))]
pub fn quiet_tick(sheet: &[Word], stop: usize) -> usize
    requires { QuietFrom stop sheet.now }
    ensures { result ≡ quiet_tick (sheet_in sheet.now) }
{
    for t in (0..stop).rev() {
        if flows_at(sheet, t) {
            return t;
        }
    }
    0
}
