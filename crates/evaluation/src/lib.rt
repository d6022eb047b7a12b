// Evaluation of a block whose inputs have given sets: one engine for the envelope and the simulation.
#![tactic(auto)]

ghost use Rattle.std.specs.Prelude.{◌≡◌, ◌+◌, ◌≤◌, ◌<◌};
ghost use Rattle.block.specs.Accepted.{AcceptedFile};
ghost use Rattle.block.specs.Block.{last_pulse_end};
ghost use Rattle.block.specs.Limits.{drop_limit};
ghost use Rattle.sheet.specs.Sheet.{sheet_in, drop_of, quiet_tick};
ghost use Rattle.sheet.specs.Sums.{Droppable};

use block::{Gate, Net, Record, view};
use operation::Currents;
use sheet::Word;

// What every evaluation of a call takes, and none changes: an accepted file with its counts, the resistance table and the hop limit.
#[derive(Clone, Copy)]
pub struct Setting<'a> {
    pub file: &'a [u8],
    pub table: &'a [u16],
    pub nets: usize,
    pub inputs: usize,
    pub hops: usize,
    pub ghost accepted: { AcceptedFile file.now nets inputs },
    pub ghost some_hops: { 1 ≤ hops },
}

// The tick at which the last pulse of a gate ends, by its arrival.
fn last_pulse_end(gate: Gate, arrival: usize) -> usize
    requires { (gate.delay ≤ arrival) × (arrival < 256) × (gate.rise < 128) × (gate.fall < 128) }
    ensures { result ≡ last_pulse_end gate arrival }
{
    arrival - gate.delay + gate.rise + gate.fall
}

// The drop and the quiet tick of a sheet in which nothing flows after the settling tick.
fn currents_of(table: &[u16], sheet: &[Word], settling: usize) -> Currents
    requires { Droppable (settling + 1) sheet.now }
    ensures { (result ≡ record { drop = drop_of table.now (sheet_in sheet.now); quiet = quiet_tick (sheet_in sheet.now) }) × (result.drop < drop_limit) }
{
    let drop = sheet::greatest_drop(table, sheet, settling + 1);
    let quiet = sheet::quiet_tick(sheet, settling + 1);
    Currents {
        drop,
        quiet: quiet as u64,
    }
}

impl Setting<'_> {
    ghost use Rattle.evaluation.specs.Evaluation.{HasRows, InputCodes, InputsMade, Evaluable, sheet_for, BlockDrawn, Evaluated};

    // Makes the waveforms of the inputs.
    fn make_inputs(self, codes: &[u8], work: &mut [u8])
        requires { InputCodes self.inputs codes.now × HasRows work.old self.inputs }
        ensures { InputsMade self.entry.file.now self.entry.inputs codes.now work.old work.new }
    {
        for net in 0..self.inputs {
            let switching = Record::of(self.file, Net(net)).switching_tick();
            waveform::input_waveform(work, Net(net), codes[net], switching);
        }
    }

    // Draws the current of every gate of the block, whose inputs have these sets, in the changes of a sheet. Returns the tick after which
    // no pulse is left.
    fn draw(self, codes: &[u8], sheet: &mut [Word], work: &mut [u8]) -> usize
        requires { Evaluable self sheet.old work.old × InputCodes self.inputs codes.now }
        ensures { BlockDrawn self.entry codes.now result sheet.new }
    {
        let joins = excitation::joins();
        sheet::clear(sheet);
        self.make_inputs(codes, work);
        let mut settling: usize = 0;
        for net in self.inputs..self.nets {
            let gate = view::gate(self.file, Net(net));
            waveform::gate_waveform(Net(net), gate, &joins, self.hops, work);
            current::draw_gate(gate, work, Net(net), sheet);
            let arrival = waveform::arrival(work, Net(net));
            settling = settling.max(last_pulse_end(gate, arrival));
        }
        settling
    }

    // Evaluates the block, whose inputs have these sets: its sheet, drop and quiet tick.
    pub fn evaluate(self, codes: &[u8], sheet: &mut [Word], work: &mut [u8]) -> Currents
        requires { Evaluable self sheet.old work.old × InputCodes self.inputs codes.now }
        ensures { Evaluated self.entry.table.now (sheet_for self.entry codes.now) result sheet.new }
    {
        let settling = self.draw(codes, sheet, work);
        sheet::restore_rows(sheet, settling + 2);
        currents_of(self.table, sheet, settling)
    }
}
