// Checks 4 to 10 on a record, and the records of a file in order.
ghost use Rattle.std.specs.Prelude.{◌≡◌, ◌<◌, ◌≤◌, take};
ghost use Rattle.laws.specs.Below.{indicator};
ghost use Rattle.block.specs.Record.{net_count, is_input};
ghost use Rattle.block.specs.Block.{latest_pin, arrival_from};
ghost use Rattle.block.specs.Verdict.{Accepted, verdict};
ghost use Rattle.block.specs.Refusals.{field_checks, records_from, answer_to};
ghost use Rattle.block.specs.Accepted.{GateRecord};
ghost use Rattle.block.specs.Read.{Known, RecordChecked};
ghost use Rattle.block.specs.View.{gate_of};

use super::{Counts, Net, Reason, Record, Refusal, check};

impl Record<'_> {
    // The greatest arrival of a gate's pins.
    fn latest_pin(self, earlier: &[u8; 1024]) -> usize
        requires { GateRecord self.net.0 (gate_of self.file.now self.net.0) }
        ensures { (result ≡ latest_pin (gate_of self.entry.file.now self.entry.net.0) (take self.entry.net.0 earlier.now)) × (result < 256) }
    {
        let pins = self.pin_count();
        let mut latest: usize = 0;
        for p in 0..pins {
            let source = self.pin(p);
            let at = source.0;
            latest = latest.max(usize::from(earlier[at]));
        }
        latest
    }

    // The arrival of a net whose fields passed, from the arrivals of the nets below it.
    fn arrival(self, earlier: &[u8; 1024]) -> usize
        requires { verdict (field_checks self.file.now self.net.0) ≡ Accepted }
        ensures { result ≡ arrival_from self.entry.file.now (take self.entry.net.0 earlier.now) self.entry.net.0 }
    {
        if self.kind() == 1 {
            return usize::from(self.switching_tick());
        }
        self.latest_pin(earlier) + self.delay()
    }

    // Checks 4 to 10. An accepted record's arrival is put beside those of the nets below it.
    fn check_record(self, inputs: usize, arrivals: &mut [u8; 1024]) -> Result<(), Refusal>
        requires { Known self.file.now self.net.0 inputs arrivals.old }
        ensures { RecordChecked self.entry.file.now self.entry.net.0 result arrivals.new }
    {
        self.check_fields(inputs)?;
        let a = self.arrival(arrivals);
        let at = self.net.0;
        arrivals[at] = (a % 256) as u8;
        check(Reason::LateArrival, at as u64, a <= 255)
    }

    // 1 for an input, 0 for a gate.
    #[tactic(auto, unfolding(crate::specs::Record::is_input))]
    fn input_indicator(self) -> usize
        ensures { (result ≡ indicator (is_input self.entry.file.now self.entry.net.0)) × (result ≤ 1) }
    {
        usize::from(self.kind() == 1)
    }
}

// Checks 4 to 10 on the records of a file, by net number.
pub fn check_records(file: &[u8], nets: usize) -> Result<Counts, Refusal>
    requires { (nets ≡ net_count file.now) × (nets ≤ 1024) }
    ensures { result ≡ answer_to file.now (verdict (records_from file.now 0 nets)) }
{
    let mut arrivals = [0u8; 1024];
    let mut inputs: usize = 0;
    for net in 0..nets {
        let record = Record::of(file, Net(net));
        record.check_record(inputs, &mut arrivals)?;
        inputs += record.input_indicator();
    }
    Ok(Counts { nets, inputs })
}
