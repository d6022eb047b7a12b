// The lines after the 1,024th record. No table has their names: they are looked up in the text itself. A text in which one of them gives
// a record is refused in any case.
ghost use Rattle.std.specs.Prelude.{◌≡◌, option_map};
ghost use Rattle.netlist.specs.Forms.{forms_of};
ghost use Rattle.netlist.specs.Kept.{line_in};
ghost use Rattle.bench.specs.Held.{gives, forms_before, GivenIn, KnownIn, AllKnownIn, JudgedIn, JudgedLater};

use super::lookup;
use crate::{Earlier, Progress};
use block::{Reason, Refusal, check};
use netlist::{Line, Name};

// Whether a line gives a name.
fn gives(line: Option<Line>, name: Name) -> bool
    ensures { result ≡ gives (option_map line_in line) name }
{
    match line {
        Some(Line::Input(given)) => given == name,
        Some(Line::Gate(gate)) => gate.name == name,
        Some(Line::Nothing) | None => false,
    }
}

impl Earlier<'_> {
    // Whether one of the lines gives a name.
    fn gives(&self, name: Name) -> bool
        ensures { GivenIn (forms_before self.now) name result }
    {
        let mut rest = self.text;
        for _ in 0..self.lines {
            let Some((line, after)) = netlist::split_line(rest) else {
                return false;
            };
            if gives(netlist::read_line(line), name) {
                return true;
            }
            rest = after;
        }
        false
    }

    // Whether a name is known: held, or given by one of the lines.
    fn knows(&self, name: Name) -> bool
        ensures { KnownIn (forms_before self.now) self.now.names.now name result }
    {
        lookup::position(self.names, name).is_some() || self.gives(name)
    }

    // Whether all pins of a gate are known.
    fn knows_all(&self, pins: &[Name]) -> bool
        ensures { AllKnownIn (forms_before self.now) self.now.names.now pins.now result }
    {
        for pin in pins {
            if !self.knows(*pin) {
                return false;
            }
        }
        true
    }

    // Judges a line that has passed check 17 by itself.
    fn judge(&self, line: &Line, number: usize, gates: bool) -> Result<(), Refusal>
        ensures { JudgedIn (forms_before self.now) self.now.names.now (line_in line.now) number gates result }
    {
        let place = number as u64;
        match line {
            Line::Nothing => Ok(()),
            Line::Input(name) => {
                let new = !self.knows(*name);
                check(Reason::WrongLine, place, !gates)?;
                check(Reason::WrongName, place, new)
            }
            Line::Gate(gate) => {
                let new = !self.knows(gate.name);
                let found = self.knows_all(gate.pins.as_slice());
                check(Reason::WrongName, place, new & found)
            }
        }
    }
}

// Judges the lines that are left: whether one of them gives a record.
pub fn judge_later(progress: Progress<'_>, gates: bool, names: &[Name]) -> Result<bool, Refusal>
    ensures { JudgedLater (forms_of progress.entry.rest.now) names.now progress.entry.number gates result }
{
    let mut rest = progress.rest;
    let mut passed: usize = 0;
    let mut after = gates;
    let mut more = false;
    // Form kept: no `for` fits, since lines are split off one after the other; an iterator of lines would be a type more.
    while let Some((bytes, next)) = netlist::split_line(rest) {
        let number = progress.number + passed;
        let wrong = Refusal {
            reason: Reason::WrongLine,
            place: number as u64,
        };
        let line = netlist::read_line(bytes).ok_or(wrong)?;
        let earlier = Earlier {
            names,
            text: progress.rest,
            lines: passed,
        };
        earlier.judge(&line, number, after)?;
        rest = next;
        passed += 1;
        after |= line.is_gate();
        more |= line.name().is_some();
    }
    Ok(more)
}
