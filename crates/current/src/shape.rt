// The shapes of pulses. The pulses of one peak have one shape, made once and drawn as often as the peak is reached. The shapes of a gate
// stand in one buffer, each from a place on.
ghost use Rattle.std.specs.Prelude.{◌≡◌, ◌+◌, ◌<◌, ◌≤◌, ℕ, length};
ghost use Rattle.current.specs.Levels.{Factored};
ghost use Rattle.current.specs.Runs.{Written, ShapeMade};

use super::level::{Factors, Pulse, level};

// So many words of the shapes, from place `from` on, written by what there is at each step.
fn write_steps<F: Fn(usize) -> u16>(shapes: &mut [u16; 528], from: usize, steps: usize, at: F)
    requires { (from + steps ≤ 528) × ((k : ℕ) → k < steps → F.pre at k) }
    ensures { Written (F.post at) from steps shapes.old shapes.new }
{
    for (k, word) in shapes[from..from + steps].iter_mut().enumerate() {
        *word = at(k);
    }
}

// The shape of a pulse, where it is needed: its level after each number of ticks, in its rise, up to before the peak, and in its fall, from
// the peak on.
pub fn make_shape(
    needed: bool,
    shapes: &mut [u16; 528],
    place: usize,
    pulse: Pulse,
    factors: Factors,
)
    requires { (place ≤ 264) × Factored pulse.peak pulse.rise pulse.fall factors.rising factors.falling }
    ensures { ShapeMade needed pulse.peak pulse.rise pulse.fall place shapes.old shapes.new }
{
    if !needed {
        return;
    }
    let rising = |k: usize| level(pulse.peak, factors.rising, k) as u16;
    write_steps(shapes, place, pulse.rise, rising);
    let falling = |k: usize| level(pulse.peak, factors.falling, pulse.fall - k) as u16;
    write_steps(shapes, place + pulse.rise, pulse.fall, falling);
}
