// The record of a net. Its fields, read through the file's bytes, are named as document 01 names them.
ghost use Rattle.std.specs.Prelude.{◌≡◌, ◌<◌};
ghost use Rattle.block.specs.Block.{switching_tick};
ghost use Rattle.block.specs.Limits.{peak_limit};
ghost use Rattle.block.specs.Record.{HasRecord, byte_at, word_at, kind, contact, delay, pin_count, pin, rise, fall, peak_lh, peak_hl, allowed};
ghost use Rattle.block.specs.View.{GateRead};

use super::{Gate, Net, Peaks};

// The record of a net of a file that holds it whole.
#[derive(Clone, Copy)]
pub struct Record<'a> {
    pub file: &'a [u8],
    pub net: Net,
    ghost inside: { HasRecord file.now net.0 },
}

impl<'a> Record<'a> {
    pub fn of(file: &'a [u8], net: Net) -> Record<'a>
        requires { HasRecord file.now net.0 }
        ensures { (result.file ≡ file.entry) × (result.net ≡ net) }
    {
        Record { file, net }
    }

    // Byte k of the record.
    pub fn byte(self, k: usize) -> usize
        requires { k < 20 }
        ensures { (result ≡ byte_at self.entry.file.now self.entry.net.0 k) × (result < 256) }
    {
        let start = self.net.start();
        usize::from(self.file[start + k])
    }

    // The two-byte number at byte k, the low byte first.
    pub fn word(self, k: usize) -> usize
        requires { k < 19 }
        ensures { (result ≡ word_at self.entry.file.now self.entry.net.0 k) × (result < 65536) }
    {
        self.byte(k) + 256 * self.byte(k + 1)
    }

    pub fn kind(self) -> usize
        ensures { (result ≡ kind self.entry.file.now self.entry.net.0) × (result < 256) }
    {
        self.byte(0)
    }

    pub fn contact(self) -> usize
        ensures { (result ≡ contact self.entry.file.now self.entry.net.0) × (result < 256) }
    {
        self.byte(1)
    }

    pub fn delay(self) -> usize
        ensures { (result ≡ delay self.entry.file.now self.entry.net.0) × (result < 256) }
    {
        self.byte(2)
    }

    pub fn pin_count(self) -> usize
        ensures { (result ≡ pin_count self.entry.file.now self.entry.net.0) × (result < 256) }
    {
        self.byte(3)
    }

    // The net of pin p, 0 to 3.
    pub fn pin(self, p: usize) -> Net
        requires { p < 4 }
        ensures { result.0 ≡ pin self.entry.file.now self.entry.net.0 p }
    {
        Net(self.word(4 + 2 * p))
    }

    pub fn rise(self) -> usize
        ensures { (result ≡ rise self.entry.file.now self.entry.net.0) × (result < 256) }
    {
        self.byte(12)
    }

    pub fn fall(self) -> usize
        ensures { (result ≡ fall self.entry.file.now self.entry.net.0) × (result < 256) }
    {
        self.byte(13)
    }

    pub fn peak_lh(self) -> usize
        ensures { (result ≡ peak_lh self.entry.file.now self.entry.net.0) × (result < peak_limit) }
    {
        self.word(14)
    }

    pub fn peak_hl(self) -> usize
        ensures { (result ≡ peak_hl self.entry.file.now self.entry.net.0) × (result < peak_limit) }
    {
        self.word(16)
    }

    pub fn allowed(self) -> usize
        ensures { (result ≡ allowed self.entry.file.now self.entry.net.0) × (result < 256) }
    {
        self.byte(18)
    }

    // The tick at which an input switches: every input switches at tick 0.
    #[tactic(auto, unfolding(crate::specs::Block::switching_tick))]
    pub fn switching_tick(self) -> u8
        ensures { result ≡ switching_tick self.entry.file.now self.entry.net.0 }
    {
        0
    }

    // The gate of the net.
    pub fn gate(self) -> Gate
        ensures { GateRead self.entry.file.now self.entry.net.0 result }
    {
        let pins = [self.pin(0), self.pin(1), self.pin(2), self.pin(3)];
        let peaks = Peaks {
            lh: self.peak_lh(),
            hl: self.peak_hl(),
        };
        Gate {
            kind: self.kind(),
            contact: self.contact(),
            delay: self.delay(),
            used: self.pin_count(),
            pins,
            rise: self.rise(),
            fall: self.fall(),
            peaks,
        }
    }
}
