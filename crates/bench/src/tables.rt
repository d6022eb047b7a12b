// The table of the records so far.
ghost use Rattle.std.specs.Prelude.{◌≡◌, ◌++◌, ◌∷◌, [], ◌+◌, ◌*◌, ◌<◌, false, take};
ghost use Rattle.bench.specs.Held.{held_names, made_records};

use crate::Table;
use netlist::Name;

impl Table {
    // The table of no line.
    pub fn new() -> Table
        ensures { (result.count ≡ 0) × (result.gates ≡ false) }
    {
        Table {
            names: [Name::default(); 1024],
            records: [0; 20480],
            count: 0,
            gates: false,
        }
    }

    // The names of the records.
    pub fn held(&self) -> &[Name]
        ensures { result.now ≡ held_names self.now }
    {
        &self.names[..self.count]
    }

    // The bytes of the records.
    pub fn made(&self) -> &[u8]
        ensures { result.now ≡ made_records self.now }
    {
        &self.records[..20 * self.count]
    }

    // Puts a record and its name after the others.
    pub fn add(&mut self, name: Name, bytes: [u8; 20])
        requires { self.old.count < 1024 }
        ensures names { held_names self.new ≡ held_names self.old ++ (name ∷ []) }
        ensures records { made_records self.new ≡ made_records self.old ++ bytes }
        ensures gates { self.new.gates ≡ self.old.gates }
    {
        let from = 20 * self.count;
        self.records[from..from + 20].copy_from_slice(&bytes);
        self.names[self.count] = name;
        self.count += 1;
    }
}
