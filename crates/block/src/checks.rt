// Checks 4 to 9, on the fields of one record.
ghost use Rattle.std.specs.Prelude.{◌≡◌, ◌+◌, ◌≤◌};
ghost use Rattle.block.specs.Record.{contact, delay, pin_count, rise, fall};
ghost use Rattle.block.specs.Block.{inputs_below};
ghost use Rattle.block.specs.Verdict.{verdict};
ghost use Rattle.block.specs.Refusals.{within, zero_bytes, starts_with_input, input_spare_zero, unused_pins_zero, gate_spare_zero, pin_count_right, pins_below, gate_in_range, input_checks, gate_checks, field_checks};

use super::{Net, Reason, Record, Refusal, check, kind};

// Whether x is low to high.
#[tactic(auto, unfolding(crate::specs::Refusals::within))]
pub fn in_range(x: usize, low: usize, high: usize) -> bool
    ensures { result ≡ within low high x }
{
    (low..=high).contains(&x)
}

// Check 3.
#[tactic(auto, unfolding(crate::specs::Refusals::starts_with_input, crate::specs::Record::is_input))]
pub fn starts_with_input(file: &[u8]) -> bool
    ensures { result ≡ starts_with_input file.now }
{
    if file.len() / 20 < 1 {
        return false;
    }
    Record::of(file, Net(0)).kind() == 1
}

// Check 9 of a gate, on its contact, delay, rise and fall.
#[tactic(auto, unfolding(crate::specs::Refusals::gate_in_range))]
pub fn gate_in_range(contact: usize, delay: usize, rise: usize, fall: usize) -> bool
    ensures { result ≡ gate_in_range contact delay rise fall }
{
    in_range(contact, 0, 15)
        & (in_range(delay, 1, 63) & (in_range(rise, 1, 127) & in_range(fall, 1, 127)))
}

impl Record<'_> {
    // Whether the n bytes from byte k on are 0.
    fn zero_bytes(self, k: usize, n: usize) -> bool
        requires { k + n ≤ 20 }
        ensures { result ≡ zero_bytes self.entry.file.now self.entry.net.0 k n }
    {
        (k..k + n).all(|i| self.byte(i) == 0)
    }

    // Check 6.
    #[tactic(auto, unfolding(crate::specs::Refusals::pin_count_right))]
    fn pin_count_right(self) -> bool
        ensures { result ≡ pin_count_right self.entry.file.now self.entry.net.0 }
    {
        let rule = kind::gate_rule(self.kind());
        in_range(self.pin_count(), rule.least, rule.most)
    }

    // Check 7 of an input.
    #[tactic(auto, unfolding(crate::specs::Refusals::input_spare_zero))]
    fn input_spare_zero(self) -> bool
        ensures { result ≡ input_spare_zero self.entry.file.now self.entry.net.0 }
    {
        self.zero_bytes(1, 17) & self.zero_bytes(19, 1)
    }

    // Whether the unused pins of a gate are 0.
    fn unused_pins_zero(self) -> bool
        requires { pin_count self.file.now self.net.0 ≤ 4 }
        ensures { result ≡ unused_pins_zero self.entry.file.now self.entry.net.0 }
    {
        (self.pin_count()..4).all(|p| self.pin(p) == Net(0))
    }

    // Check 7 of a gate.
    #[tactic(auto, unfolding(crate::specs::Refusals::gate_spare_zero))]
    fn gate_spare_zero(self) -> bool
        requires { pin_count self.file.now self.net.0 ≤ 4 }
        ensures { result ≡ gate_spare_zero self.entry.file.now self.entry.net.0 }
    {
        self.unused_pins_zero() & self.zero_bytes(18, 2)
    }

    // Check 8.
    fn pins_below(self) -> bool
        requires { pin_count self.file.now self.net.0 ≤ 4 }
        ensures { result ≡ pins_below self.entry.file.now self.entry.net.0 }
    {
        (0..self.pin_count()).all(|p| self.pin(p) < self.net)
    }

    // Check 9 on the record of a gate.
    fn record_in_range(self) -> bool
        ensures { result ≡ gate_in_range (contact self.entry.file.now self.entry.net.0) (delay self.entry.file.now self.entry.net.0) (rise self.entry.file.now self.entry.net.0) (fall self.entry.file.now self.entry.net.0) }
    {
        gate_in_range(self.contact(), self.delay(), self.rise(), self.fall())
    }

    // Checks 5, 7 and 9 of an input, given how many inputs stand below it.
    #[tactic(auto, using(crate::proofs::Verdicts::judging, crate::proofs::Fields::place_by_count, crate::proofs::Fields::within_same), unfolding(crate::specs::Refusals::input_checks, crate::specs::Refusals::input_in_range))]
    fn check_input(self, inputs: usize) -> Result<(), Refusal>
        requires { inputs ≡ inputs_below self.file.now self.net.0 }
        ensures { result ≡ verdict (input_checks self.entry.file.now self.entry.net.0) }
    {
        let place = self.net.0 as u64;
        check(
            Reason::MisplacedInput,
            place,
            (inputs == self.net.0) & (inputs < 64),
        )?;
        check(Reason::StrayByte, place, self.input_spare_zero())?;
        check(Reason::OutOfRange, place, in_range(self.allowed(), 1, 15))
    }

    // Checks 6 to 9 of a gate. Only a right pin count lets its pins be read.
    #[tactic(auto, using(crate::proofs::Verdicts::judging, crate::proofs::Verdicts::holds, crate::proofs::Fields::pins_high), unfolding(crate::specs::Refusals::gate_checks))]
    fn check_gate(self) -> Result<(), Refusal>
        ensures { result ≡ verdict (gate_checks self.entry.file.now self.entry.net.0) }
    {
        let place = self.net.0 as u64;
        check(Reason::WrongPinCount, place, self.pin_count_right())?;
        check(Reason::StrayByte, place, self.gate_spare_zero())?;
        check(Reason::PinNotBelow, place, self.pins_below())?;
        check(Reason::OutOfRange, place, self.record_in_range())
    }

    // Checks 4 to 9, given how many inputs stand below the net.
    #[tactic(auto, using(crate::proofs::Verdicts::judging, crate::proofs::Fields::within_same), unfolding(crate::specs::Refusals::field_checks, crate::specs::Refusals::kind_known))]
    pub(crate) fn check_fields(self, inputs: usize) -> Result<(), Refusal>
        requires { inputs ≡ inputs_below self.file.now self.net.0 }
        ensures { result ≡ verdict (field_checks self.entry.file.now self.entry.net.0) }
    {
        let kind = self.kind();
        check(Reason::UnknownKind, self.net.0 as u64, in_range(kind, 1, 9))?;
        if kind == 1 {
            self.check_input(inputs)
        } else {
            self.check_gate()
        }
    }
}
