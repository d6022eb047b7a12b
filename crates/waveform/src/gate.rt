// The waveform of a gate, from those of its pins.
ghost use Rattle.std.specs.Prelude.{◌≡◌, ℕ, ◌-◌, ◌*◌, ◌≤◌, ◌<◌};
ghost use Rattle.laws.specs.Settled.{SettledAfter};
ghost use Rattle.excitation.specs.UncertaintySet.{decode};
ghost use Rattle.parts.specs.Parts.{set_at};
ghost use Rattle.rows.specs.Rows.{HasRow, set_in, RowMade};
ghost use Rattle.waveform.specs.Pins.{made_before, made_at, FunctionOf, PartIs, raw_at, held_from, RowReady};
ghost use Rattle.waveform.specs.Rows.{HasPinRows, latest_in, pins_last_in, LastChange, Ready, GateMade};

use super::joining::Function;
use super::{joining, row};
use block::{Gate, Net};
use excitation::{JoinTable, Set};
use parts::Part;

// The greatest arrival of some nets, and the tick after which all of them stay the same.
#[derive(Clone, Copy)]
struct Latest {
    arrival: usize,
    last: usize,
}

// The greatest arrival of a gate's pins, and the tick after which they stay the same.
fn latest_pin(gate: Gate, work: &[u8]) -> Latest
    requires { HasPinRows work.now gate }
    ensures { (result.arrival ≡ latest_in gate work.now) × (result.last ≡ pins_last_in gate work.now) × (result.arrival < 256) × (result.last < 256) }
{
    let mut arrival: usize = 0;
    let mut last: usize = 0;
    for &source in &gate.pins[..gate.used] {
        arrival = arrival.max(row::arrival(work, source));
        last = last.max(row::last(work, source));
    }
    Latest { arrival, last }
}

// Makes the first `parts` parts of the row of a gate's raw sets: its pins joined, turned over or not, later by its delay, 64 ticks at a
// time with nothing written in between. Until its delay has passed it has the set before tick 0. Returns what it makes of its pins in
// the last of these parts.
fn make_parts(
    gate: Gate,
    work: &mut [u8],
    net: usize,
    function: Function,
    before: Set,
    parts: usize,
) -> Part
    requires { RowReady net gate parts work.old × FunctionOf gate function × (decode before.code ≡ made_before gate work.old) }
    ensures { RowMade (raw_at gate work.old) net (64 * parts) work.old work.new × PartIs (made_at gate work.old) (64 * (parts - 1)) result }
{
    let d = gate.delay as u64;
    let mut earlier = Part::held(before);
    for part in 0..parts {
        let here = joining::gate_part(gate, work, function, part);
        let moved = here.shifted(earlier, d);
        rows::write_part(work, net, part, moved);
        earlier = here;
    }
    earlier
}

// The parts of a row from `parts` on, where the sets have settled: they hold the last of the 64 sets before, later by d ticks.
fn hold_rest(work: &mut [u8], net: usize, earlier: Part, settled: Part, d: u64, parts: usize)
    requires { HasRow work.old net × ((k : ℕ) → k < 64 → set_at settled k ≡ set_at earlier 63) × (1 ≤ d) × (d < 64) × (parts ≤ 4) }
    ensures { RowMade (held_from earlier d parts (set_in work.old net)) net 256 work.old work.new }
{
    if parts > 3 {
        return;
    }
    let first = settled.shifted(earlier, d);
    rows::write_part(work, net, parts, first);
    for part in parts + 1..4 {
        rows::write_part(work, net, part, settled);
    }
}

// Makes the row of a gate's raw sets. Its pins are joined in the first `parts` parts; after them it has settled. Returns the set at
// which it settles, at 64 ticks.
fn make_row(
    gate: Gate,
    work: &mut [u8],
    net: usize,
    function: Function,
    before: Set,
    parts: usize,
) -> Part
    requires { RowReady net gate parts work.old × FunctionOf gate function × (decode before.code ≡ made_before gate work.old) }
    ensures { RowMade (raw_at gate work.old) net 256 work.old work.new × PartIs (λ t. made_at gate work.old 255) 0 result }
{
    let last = make_parts(gate, work, net, function, before, parts);
    let settled = last.settled();
    hold_rest(work, net, last, settled, gate.delay as u64, parts);
    settled
}

// The tick after which a gate's sets stay the same, which they do after tick `bound`. A gate that arrives at tick 255 may switch there;
// any other has the set `end` at that tick.
fn last_change(work: &[u8], net: usize, end: Part, bound: usize, arrival: usize) -> usize
    requires { HasRow work.now net × SettledAfter bound (set_in work.now net) × (bound ≤ arrival) × (arrival ≤ 255) × (arrival < 255 → PartIs (λ t. set_in work.now net 255) 0 end) }
    ensures { LastChange arrival (set_in work.now net) result }
{
    if arrival == 255 {
        return 255;
    }
    for part in (0..bound / 64 + 1).rev() {
        let other = rows::read_part(work, net, part).differing(end);
        if other != 0 {
            return 64 * part + 63 - (other.leading_zeros() as usize);
        }
    }
    0
}

// Makes the waveform of a gate. Its pins are the same after tick `last`: no part of their rows is joined that lies after the tick which
// follows.
pub fn gate_waveform(net: Net, gate: Gate, joins: &JoinTable, hops: usize, work: &mut [u8])
    requires { Ready net.0 gate work.old × (1 ≤ hops) }
    ensures { GateMade net.0 gate hops work.old work.new }
{
    let latest = latest_pin(gate, work);
    let arrival = latest.arrival + gate.delay;
    let bound = latest.last + gate.delay;
    let before = joining::gate_before(gate, work, joins);
    let function = Function::of(gate, joins);
    let settled = make_row(
        gate,
        work,
        net.0,
        function,
        before,
        (latest.last + 1) / 64 + 1,
    );
    fill::fill(work, net.0, hops, bound);
    let last = last_change(work, net.0, settled, bound, arrival);
    row::write_ends(work, net, before, arrival as u8, last as u8);
}
