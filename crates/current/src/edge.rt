// The edges of a gate, lh and hl, by their peaks, and the runs of ticks by the peak that they allow.
ghost use Rattle.std.specs.Prelude.{◌≡◌};
ghost use Rattle.block.specs.View.{FieldsFit};
ghost use Rattle.current.specs.Edges.{edge_of, peak_of};

use block::Gate;
use excitation::{Excitation, HL, LH};

// Which of the peaks of a gate's two edges: the greater one, or the other.
#[derive(Clone, Copy, PartialEq, Eq, Debug)]
pub enum Peak {
    Greater,
    Lower,
}

// A run of ticks, from tick `first` to before tick `end`, that allow the same peak.
#[derive(Clone, Copy)]
pub struct Run {
    pub first: usize,
    pub end: usize,
    pub peak: Peak,
}

// The edge that has the greater peak, or the other edge.
pub fn edge_of(gate: Gate, peak: Peak) -> Excitation
    ensures { result ≡ edge_of gate peak }
{
    if gate.peaks.hl <= gate.peaks.lh {
        match peak {
            Peak::Greater => LH,
            Peak::Lower => HL,
        }
    } else {
        match peak {
            Peak::Greater => HL,
            Peak::Lower => LH,
        }
    }
}

// Its peak.
pub fn peak_of(gate: Gate, peak: Peak) -> u32
    requires { FieldsFit gate }
    ensures { result ≡ peak_of gate peak }
{
    match peak {
        Peak::Greater => gate.peaks.lh.max(gate.peaks.hl) as u32,
        Peak::Lower => gate.peaks.lh.min(gate.peaks.hl) as u32,
    }
}
