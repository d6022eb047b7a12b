// What a gate makes of its pins: before tick 0 by the table of joins, at the ticks by words, 64 at a time.
ghost use Rattle.std.specs.Prelude.{◌≡◌, ◌*◌, ◌<◌};
ghost use Rattle.excitation.specs.Excitation.{levels_of};
ghost use Rattle.excitation.specs.UncertaintySet.{decode};
ghost use Rattle.block.specs.View.{pin_of};
ghost use Rattle.parts.specs.Parts.{numbered};
ghost use Rattle.rows.specs.Rows.{set_in};
ghost use Rattle.waveform.specs.Pins.{joined_below, made_before, made_at, FunctionOf, PartIs};
ghost use Rattle.waveform.specs.Rows.{before_in, HasPinRows};

use super::row;
use block::Gate;
use excitation::{Join, JoinTable, Set};
use parts::Part;

// The function of a gate: the number of the one by which it joins its pins, and whether the result is turned over.
#[derive(Clone, Copy)]
pub struct Function {
    pub number: u8,
    pub inverts: bool,
}

impl Function {
    // The function of a gate's kind.
    pub fn of(gate: Gate, joins: &JoinTable) -> Function
        ensures { FunctionOf gate result }
    {
        let rule = block::gate_rule(gate.kind);
        let by = rule.join;
        Function {
            number: parts::function_number(joins, by),
            inverts: rule.inverts,
        }
    }
}

// The join of the pins' sets before tick 0, left to right, by the table of joins.
fn join_before(gate: Gate, work: &[u8], joins: &JoinTable, by: Join) -> Set
    requires { HasPinRows work.now gate }
    ensures { decode result.code ≡ joined_below (levels_of by) gate.used (λ p. before_in work.now (pin_of gate p)) }
{
    let mut joined = row::set_before(work, gate.pins[0]);
    for &source in &gate.pins[1..gate.used] {
        let next = row::set_before(work, source);
        joined = joined.join(next, joins, by);
    }
    joined
}

// A gate's set before tick 0.
pub fn gate_before(gate: Gate, work: &[u8], joins: &JoinTable) -> Set
    requires { HasPinRows work.now gate }
    ensures { decode result.code ≡ made_before gate work.now }
{
    let rule = block::gate_rule(gate.kind);
    let joined = join_before(gate, work, joins, rule.join);
    if rule.inverts {
        joined.invert()
    } else {
        joined
    }
}

// The joins of the pins' sets from tick 64 × part on, left to right, by the function of this number.
fn join_part(gate: Gate, work: &[u8], f: u8, part: usize) -> Part
    requires { HasPinRows work.now gate × (f < 16) × (part < 4) }
    ensures { PartIs (λ t. joined_below (numbered f) gate.used (λ p. set_in work.now (pin_of gate p) t)) (64 * part) result }
{
    let mut joined = rows::read_part(work, gate.pins[0].0, part);
    for &source in &gate.pins[1..gate.used] {
        let next = rows::read_part(work, source.0, part);
        joined = parts::join_parts(joined, next, f);
    }
    joined
}

// What a gate makes of its pins from tick 64 × part on, by its function.
pub fn gate_part(gate: Gate, work: &[u8], function: Function, part: usize) -> Part
    requires { HasPinRows work.now gate × FunctionOf gate function × (part < 4) }
    ensures { PartIs (made_at gate work.now) (64 * part) result }
{
    let joined = join_part(gate, work, function.number, part);
    if function.inverts {
        joined.invert()
    } else {
        joined
    }
}
