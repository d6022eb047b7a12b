// The block file: its records, what a gate's kind decides, and the reader.
#![tactic(auto)]

ghost use Rattle.std.specs.Prelude.{◌≡◌, ◌*◌, ◌≤◌, ◌<◌, length};
ghost use Rattle.laws.specs.Rewritten.{Rewritten};
ghost use Rattle.block.specs.Record.{allowed};
ghost use Rattle.block.specs.Verdict.{verdict};
ghost use Rattle.block.specs.Refusals.{file_checks, read_of};

mod checks;
mod kind;
mod reader;
mod record;
mod verdict;
pub mod view;

pub use checks::{gate_in_range, in_range};
pub use kind::{Rule, gate_rule};
pub use record::Record;
pub use verdict::{Reason, Refusal, check};

// A net's number: the position of its record in the file.
#[derive(Clone, Copy, PartialEq, Eq, PartialOrd, Ord)]
pub struct Net(pub usize);

impl Net {
    // Where the record starts in the file.
    pub fn start(self) -> usize
        requires { self.0 < 1024 }
        ensures { result ≡ 20 * self.0 }
    {
        20 * self.0
    }
}

// The peaks of a gate's pulses, in microamperes.
#[derive(Clone, Copy, PartialEq, Eq)]
pub struct Peaks {
    pub lh: usize,
    pub hl: usize,
}

// A gate as its record has it. `used` is its pin count: pins 0 to `used` - 1 are used.
#[derive(Clone, Copy, PartialEq, Eq)]
pub struct Gate {
    pub kind: usize,
    pub contact: usize,
    pub delay: usize,
    pub used: usize,
    pub pins: [Net; 4],
    pub rise: usize,
    pub fall: usize,
    pub peaks: Peaks,
}

// What Read answers: how many nets a block has, and how many of them are inputs.
#[derive(Clone, Copy, PartialEq, Eq)]
pub struct Counts {
    pub nets: usize,
    pub inputs: usize,
}

// Checks 1 to 3, on the whole file.
#[tactic(auto, using(crate::proofs::Verdicts::judging), unfolding(crate::specs::Refusals::file_checks))]
fn check_file(file: &[u8]) -> Result<(), Refusal>
    ensures { result ≡ verdict (file_checks file.now) }
{
    let length = file.len();
    check(Reason::WrongLength, 0, length % 20 == 0)?;
    check(Reason::TooManyRecords, 0, length / 20 <= 1024)?;
    check(Reason::NoFirstInput, 0, checks::starts_with_input(file))
}

// Read: checks 1 to 10, and the counts of nets and inputs.
pub fn read(file: &[u8]) -> Result<Counts, Refusal>
    ensures { result ≡ read_of file.now }
{
    check_file(file)?;
    reader::check_records(file, file.len() / 20)
}

// Writes the codes of the frame's sets, a byte for each input.
pub fn frame_codes(file: &[u8], inputs: usize, codes: &mut [u8; 64])
    requires { (20 * inputs ≤ length file.now) × (inputs ≤ 64) }
    ensures { Rewritten (allowed file.now) 0 inputs codes.old codes.new }
{
    for (net, code) in codes[..inputs].iter_mut().enumerate() {
        *code = Record::of(file, Net(net)).allowed() as u8;
    }
}
