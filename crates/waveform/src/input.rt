// The waveform of an input.
ghost use Rattle.std.specs.Prelude.{cond, ◌≡◌, ℕ, ◌+◌, ◌*◌, ◌<◌, ltb};
ghost use Rattle.excitation.specs.UncertaintySet.{decode};
ghost use Rattle.parts.specs.Parts.{set_at};
ghost use Rattle.rows.specs.Rows.{HasRow, RowMade};
ghost use Rattle.waveform.specs.Rows.{input_at, InputMade};

use super::row;
use block::Net;
use excitation::Set;
use parts::Part;

// The sets of an input from tick 64 × part on.
fn input_part(before: Part, here: Part, after: Part, switching: usize, part: usize) -> Part
    requires { (switching < 256) × (part < 4) }
    ensures { (k : ℕ) → k < 64 → set_at result k ≡ cond (ltb (64 * part + k) switching) (set_at before k) (cond (ltb (64 * part + k) (switching + 1)) (set_at here k) (set_at after k)) }
{
    let earlier = runs::ticks_before(switching, part);
    let until = runs::ticks_before(switching + 1, part);
    before.at_ticks(earlier, here.at_ticks(until, after))
}

// Makes the row of an input of a set.
fn make_row(work: &mut [u8], net: usize, set: Set, switching: usize)
    requires { HasRow work.old net × (switching < 256) }
    ensures { RowMade (input_at switching (decode set.code)) net 256 work.old work.new }
{
    let before = Part::held(set.held_before());
    let here = Part::held(set);
    let after = Part::held(set.held_after());
    for part in 0..4 {
        let sets = input_part(before, here, after, switching, part);
        rows::write_part(work, net, part, sets);
    }
}

// The waveform of an input of a set: its first levels held before the tick at which it switches, its second levels held after it.
pub fn input_waveform(work: &mut [u8], net: Net, code: u8, switching: u8)
    requires { HasRow work.old net.0 × (code < 16) }
    ensures { InputMade net.0 switching code work.old work.new }
{
    let set = Set { code };
    make_row(work, net.0, set, usize::from(switching));
    row::write_ends(work, net, set.held_before(), switching, switching);
}
