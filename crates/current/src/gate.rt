// One gate drawn: its current added at its contact, in the changes of a sheet in the making.
ghost use Rattle.current.specs.Drawing.{transitions_in, Drawable, Drawn};

use super::edge::{self, Peak};
use super::pass;
use super::ticks::has_tick;
use block::{Gate, Net};
use sheet::Word;

// The current of a net's gate added to the sheet. A gate without transitions adds nothing.
pub fn draw_gate(gate: Gate, work: &[u8], net: Net, sheet: &mut [Word])
    requires { Drawable gate work.now net.0 sheet.old }
    ensures { Drawn gate (transitions_in work.now net.0) sheet.old sheet.new }
{
    let greater = rows::read_row(work, net.0, edge::edge_of(gate, Peak::Greater));
    let lower = rows::read_row(work, net.0, edge::edge_of(gate, Peak::Lower));
    if !has_tick(&greater) && !has_tick(&lower) {
        return;
    }
    pass::pass_ticks(sheet, gate, greater, &lower);
}
