// The block view: a checked block is read gate by gate, through the caller's own records.
ghost use Rattle.std.specs.Prelude.{◌≡◌};
ghost use Rattle.block.specs.Record.{HasRecord};
ghost use Rattle.block.specs.View.{GateRead, InView};

use super::{Gate, Net, Record};

// Document 01's block view: the lent record slice and the net count.
#[derive(Clone, Copy)]
pub struct BlockView<'a> {
    pub records: &'a [u8],
    pub nets: usize,
}

// The view of a block of so many nets.
pub fn view_of<'a>(records: &'a [u8], nets: usize) -> BlockView<'a>
    ensures { (result.records ≡ records.entry) × (result.nets ≡ nets) }
{
    BlockView { records, nets }
}

impl<'a> BlockView<'a> {
    // The gate of a net.
    pub fn gate(self, net: Net) -> Gate
        requires { InView self.records.now self.nets net.0 }
        ensures { GateRead self.entry.records.now net.0 result }
    {
        Record::of(self.records, net).gate()
    }
}

// The gate of a net of a block of so many nets, read through its view.
fn gate_in(records: &[u8], nets: usize, net: Net) -> Gate
    requires { InView records.now nets net.0 }
    ensures { GateRead records.now net.0 result }
{
    view_of(records, nets).gate(net)
}

// The gate of a net of a file, read through the file's view.
pub fn gate(file: &[u8], net: Net) -> Gate
    requires { HasRecord file.now net.0 }
    ensures { GateRead file.now net.0 result }
{
    gate_in(file, file.len() / 20, net)
}
