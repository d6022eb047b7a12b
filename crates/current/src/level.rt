// The levels of a pulse, without a division a tick.
ghost use Rattle.std.specs.Prelude.{◌≡◌, ◌+◌, ◌<◌, ◌≤◌};
ghost use Rattle.block.specs.Limits.{peak_limit};
ghost use Rattle.current.specs.Levels.{factor_of, level_in256ths, level_by};

// Peak, rise and fall of a pulse.
#[derive(Clone, Copy)]
pub struct Pulse {
    pub peak: u32,
    pub rise: usize,
    pub fall: usize,
}

// The factors by which the levels of a pulse's rise and of its fall are taken.
#[derive(Clone, Copy)]
pub struct Factors {
    pub rising: u32,
    pub falling: u32,
}

// The factor by which the levels of a rise or a fall of these steps are taken.
pub fn factor(steps: usize) -> u32
    requires { (1 ≤ steps) × (steps < 128) }
    ensures { result ≡ factor_of steps }
{
    2147483648 / steps as u32 + 1
}

// The level after j steps in 256ths.
fn level_in_256ths(peak: u32, factor: u32, j: usize) -> u32
    requires { (peak < peak_limit) × (j < 128) }
    ensures { (result ≡ level_in256ths peak factor j) × (result + 128 < 4294967296) }
{
    let product = u64::from(peak * j as u32) * u64::from(factor);
    (product / 8388608) as u32
}

// The level after j steps, rounded to the nearest: an exact half, 128 of 256, goes to the even number, since one 256th more is added where
// the whole number is odd.
pub fn level(peak: u32, factor: u32, j: usize) -> u32
    requires { (peak < peak_limit) × (j < 128) }
    ensures { result ≡ level_by peak factor j }
{
    let fine = level_in_256ths(peak, factor, j);
    (fine + 127 + fine / 256 % 2) / 256
}
