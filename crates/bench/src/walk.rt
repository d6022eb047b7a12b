// The lines of a text, from the first on.
ghost use Rattle.std.specs.Prelude.{◌≡◌, ◌≤◌, ◌<◌, false, length};
ghost use Rattle.netlist.specs.Forms.{line_form};
ghost use Rattle.netlist.specs.Kept.{gate_in};
ghost use Rattle.bench.specs.Held.{InputTaken, GateTaken, LineRead, Begun, TextTaken};

use super::{lookup, making, overflow};
use crate::{Progress, Table};
use block::{Reason, Refusal, check};
use netlist::{GateLine, Line, Name};

impl Table {
    // Takes the line of an input that has passed check 17 by itself.
    fn take_input(&mut self, name: Name, number: usize) -> Result<(), Refusal>
        requires { self.old.count < 1024 }
        ensures { InputTaken name number self.old self.new result }
    {
        let place = number as u64;
        let new = lookup::position(self.held(), name).is_none();
        check(Reason::WrongLine, place, !self.gates)?;
        check(Reason::WrongName, place, new)?;
        self.add(name, making::input_record());
        Ok(())
    }

    // Takes the line of a gate that has passed check 17 by itself.
    fn take_gate(&mut self, gate: &GateLine, number: usize, list: &[u8; 64]) -> Result<(), Refusal>
        requires { (self.old.count < 1024) × (2 ≤ gate.now.kind) × (gate.now.kind ≤ 9) }
        ensures { GateTaken (gate_in gate.now) number list.now self.old self.new result }
    {
        let place = number as u64;
        let unknown = Refusal {
            reason: Reason::WrongName,
            place,
        };
        let nets = lookup::pin_nets(self.held(), &gate.pins).ok_or(unknown)?;
        let again = lookup::position(self.held(), gate.name).is_some();
        check(Reason::WrongName, place, !again)?;
        let record = making::gate_record(list, gate, nets);
        self.add(gate.name, record);
        self.gates = true;
        Ok(())
    }

    // Takes a line.
    fn take_line(&mut self, bytes: &[u8], number: usize, list: &[u8; 64]) -> Result<(), Refusal>
        requires { self.old.count < 1024 }
        ensures { LineRead (line_form bytes.now) number list.now self.old self.new result }
    {
        let wrong = Refusal {
            reason: Reason::WrongLine,
            place: number as u64,
        };
        match netlist::read_line(bytes).ok_or(wrong)? {
            Line::Nothing => Ok(()),
            Line::Input(name) => self.take_input(name, number),
            Line::Gate(gate) => self.take_gate(&gate, number, list),
        }
    }
}

// Takes lines from the first on, up to the 1,024th record.
fn begin<'a>(text: &'a [u8], list: &[u8; 64], table: &mut Table) -> Result<Progress<'a>, Refusal>
    requires { (table.old.count ≡ 0) × (table.old.gates ≡ false) }
    ensures { Begun text.now list.now table.new result }
{
    let mut rest = text;
    let mut number: usize = 1;
    // Form kept: no `for` fits, since lines are split off one after the other, and the caller goes on from where this stops.
    while table.count < 1024 {
        let Some((line, after)) = netlist::split_line(rest) else {
            break;
        };
        table.take_line(line, number, list)?;
        rest = after;
        number += 1;
    }
    Ok(Progress { rest, number })
}

// Takes all lines of a text. Those after the 1,024th record are judged too; one of them that gives a record makes the text too long.
pub fn take_text(text: &[u8], list: &[u8; 64], table: &mut Table) -> Result<(), Refusal>
    requires { (table.old.count ≡ 0) × (table.old.gates ≡ false) }
    ensures { TextTaken text.now list.now table.new result }
{
    let progress = begin(text, list, table)?;
    let all_taken = progress.rest.is_empty();
    if all_taken {
        return Ok(());
    }
    let more = overflow::judge_later(progress, table.gates, table.held())?;
    check(Reason::TooManyRecords, 0, !more)
}
