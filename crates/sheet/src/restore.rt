// A sheet in the making holds changes: each word is the change of its contact's current from the tick before, modulo 2 to the 64. Here the
// currents are restored from them, as running sums over each row.
ghost use Rattle.std.specs.Prelude.{◌≡◌, ◌+◌, ◌≤◌, length, slice_index};
ghost use Rattle.laws.specs.Rewritten.{Rewritten};
ghost use Rattle.sheet.specs.Changes.{restored, Restored};

use super::Word;

// The row that starts at word `start`, at each tick before `stop`.
#[tactic(auto, unfolding(laws::specs::Below::sum_below))]
fn restore_row(sheet: &mut [Word], start: usize, stop: usize)
    requires { (length sheet.old ≡ 8192) × (start + 512 ≤ 8192) × (stop ≤ 512) }
    ensures { Rewritten (restored (λ k. slice_index sheet.old (start + k))) start stop sheet.old sheet.new }
{
    let mut current: Word = 0;
    for t in 0..stop {
        current = current.wrapping_add(sheet[start + t]);
        sheet[start + t] = current;
    }
}

// Every row, at each tick before `stop`.
pub fn restore_rows(sheet: &mut [Word], stop: usize)
    requires { (length sheet.old ≡ 8192) × (stop ≤ 512) }
    ensures { Restored stop sheet.old sheet.new }
{
    for contact in 0..16 {
        restore_row(sheet, 512 * contact, stop);
    }
}
