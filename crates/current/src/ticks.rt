// The ticks of a gate by the peak that each allows. A row of 256 bits has the ticks of a peak.
ghost use Rattle.std.specs.Prelude.{◌≡◌, ◌<◌, ◌≤◌, false, IfSome, IfNone};
ghost use Rattle.bits.specs.Bits.{row_bit};
ghost use Rattle.current.specs.Edges.{NoTick, Without, Either, TicksByPeak, NextRun, NoRun};

use super::edge::{Peak, Run};

// Each tick has one peak: the ticks of the greater one, those of the lower one, where it is alone, and all of them.
#[derive(Drop)]
pub struct Ticks {
    pub greater: [u64; 4],
    pub lower: [u64; 4],
    pub all: [u64; 4],
    pub ghost by_peak: { TicksByPeak greater lower all },
}

// Whether a row has a tick.
pub fn has_tick(ticks: &[u64; 4]) -> bool
    ensures { result ≡ false → NoTick ticks.now }
{
    *ticks != [0; 4]
}

// Whether tick t, below 256, is a tick of a row.
fn has_at(ticks: &[u64; 4], t: usize) -> bool
    requires { t < 256 }
    ensures { result ≡ row_bit ticks.now t }
{
    (ticks[t / 64] >> (t % 64)) % 2 == 1
}

// The ticks of one row that are not ticks of another.
fn without(ticks: &[u64; 4], others: &[u64; 4]) -> [u64; 4]
    ensures { Without ticks.now others.now result }
{
    std::array::from_fn(|w| ticks[w] & !others[w])
}

// The ticks of either row.
fn either(ticks: &[u64; 4], others: &[u64; 4]) -> [u64; 4]
    ensures { Either ticks.now others.now result }
{
    std::array::from_fn(|w| ticks[w] | others[w])
}

impl Ticks {
    // From the ticks of the edge with the greater peak and those of the other edge.
    pub fn new(greater: [u64; 4], other: &[u64; 4]) -> Ticks
        ensures { (result.greater ≡ greater) × Without other.now greater result.lower }
    {
        let lower = without(other, &greater);
        let all = either(&greater, &lower);
        Ticks {
            greater,
            lower,
            all,
        }
    }

    // The next run, not before tick `from`.
    pub fn next_run(&self, from: usize) -> Option<Run>
        requires { from ≤ 256 }
        ensures next { IfSome result (NextRun self.now.greater self.now.lower from) }
        ensures none { IfNone result (NoRun self.now.greater self.now.lower from) }
    {
        let first = runs::next_at(&self.all, from, true);
        if first == 256 {
            return None;
        }
        if has_at(&self.greater, first) {
            let end = runs::next_at(&self.greater, first, false);
            return Some(Run {
                first,
                end,
                peak: Peak::Greater,
            });
        }
        let end = runs::next_at(&self.lower, first, false);
        Some(Run {
            first,
            end,
            peak: Peak::Lower,
        })
    }
}
