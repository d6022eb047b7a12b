// One pass over a gate's ticks for both edges, a run of ticks at each step. Both edges have the same rise and fall, so that of the pulses
// that one tick allows the one with the greater peak is nowhere below the other: a tick has one peak.
ghost use Rattle.std.specs.Prelude.{◌≡◌, ◌<◌, ◌≤◌, length, replicate};
ghost use Rattle.block.specs.View.{FieldsFit};
ghost use Rattle.current.specs.Edges.{PulseFields, pulse_of, place_of, GateEdges, ShapesMade, Passed};

use super::edge::Peak;
use super::level::{Factors, Pulse};
use super::ticks::{Ticks, has_tick};
use super::{draw, edge, level, shape};
use block::Gate;
use sheet::Word;

// The pulse of a peak.
fn pulse_of(gate: Gate, peak: Peak) -> Pulse
    requires { FieldsFit gate }
    ensures { result ≡ pulse_of gate peak }
{
    Pulse {
        peak: edge::peak_of(gate, peak),
        rise: gate.rise,
        fall: gate.fall,
    }
}

// Where its shape stands among the shapes.
fn place_of(peak: Peak) -> usize
    ensures { result ≡ place_of peak }
{
    match peak {
        Peak::Greater => 0,
        Peak::Lower => 264,
    }
}

// The shapes of both pulses, made from zeros where a tick has their peak.
fn make_shapes(gate: Gate, ticks: &Ticks, shapes: &mut [u16; 528])
    requires { PulseFields gate × (shapes.old ≡ replicate 528 0) }
    ensures { ShapesMade gate ticks.now.greater ticks.now.lower shapes.new }
{
    let factors = Factors {
        rising: level::factor(gate.rise),
        falling: level::factor(gate.fall),
    };
    shape::make_shape(
        has_tick(&ticks.greater),
        shapes,
        place_of(Peak::Greater),
        pulse_of(gate, Peak::Greater),
        factors,
    );
    shape::make_shape(
        has_tick(&ticks.lower),
        shapes,
        place_of(Peak::Lower),
        pulse_of(gate, Peak::Lower),
        factors,
    );
}

// One step of the pass: the next run is drawn. The answer is the tick up to which the sets are passed then.
// Form kept: the sheet is a slice, its length in the contracts down to `draw_run`, since `gate::draw_gate` takes one, whose contract may
// not change.
fn pass_run(
    sheet: &mut [Word],
    gate: Gate,
    ticks: &Ticks,
    shapes: &[u16; 528],
    passed: usize,
) -> usize
    requires { (length sheet.old ≡ 8192) × PulseFields gate × ShapesMade gate ticks.now.greater ticks.now.lower shapes.now × (gate.delay ≤ passed) × (passed < 256) }
    ensures { (passed < result) × (result ≤ 256) × Passed gate ticks.now.greater ticks.now.lower passed result sheet.old sheet.new }
{
    let Some(run) = ticks.next_run(passed) else {
        return 256;
    };
    let first = run.first - gate.delay;
    let last = run.end - 1 - gate.delay;
    draw::draw_run(
        sheet,
        gate.contact,
        pulse_of(gate, run.peak),
        shapes,
        place_of(run.peak),
        first,
        last,
    );
    run.end
}

// The pass over all ticks, from those of the edge with the greater peak and those of the other edge. It begins at the gate's delay, before
// which no tick allows an edge.
pub fn pass_ticks(sheet: &mut [Word], gate: Gate, greater: [u64; 4], lower: &[u64; 4])
    requires { (length sheet.old ≡ 8192) × GateEdges gate greater lower.now }
    ensures { Passed gate greater lower.now 0 256 sheet.old sheet.new }
{
    let ticks = Ticks::new(greater, lower);
    let mut shapes: [u16; 528] = [0; 528];
    make_shapes(gate, &ticks, &mut shapes);
    let mut passed = gate.delay;
    // Form kept: it was tried and misses a bar of speed: with a `while let` over the runs that `Ticks::next_run` gives, an evaluation took
    // 1 to 2 % more instructions.
    while passed < 256 {
        passed = pass_run(sheet, gate, &ticks, &shapes, passed);
    }
}
