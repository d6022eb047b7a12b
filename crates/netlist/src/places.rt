// The places that names in brackets stand in.
ghost use Rattle.std.specs.Prelude.{◌≡◌, ◌≤◌, ◌<◌, [], ◌∷◌, ◌++◌, length, leb};

use super::Name;

// Names in brackets, four at most, in four places from the first on.
#[derive(Clone, Copy)]
pub struct Names {
    places: [Name; 4],
    used: usize,
    ghost few: { used ≤ 4 },
}

impl Names {
    ghost use Rattle.netlist.specs.Kept.{names_in};

    // No names.
    pub fn new() -> Names
        ensures { names_in result ≡ [] }
    {
        Names {
            places: [Name::default(); 4],
            used: 0,
        }
    }

    // The names, in their order.
    pub fn as_slice(&self) -> &[Name]
        ensures value { result.now ≡ names_in self.now }
        ensures few { length result.now ≤ 4 }
    {
        &self.places[..self.used]
    }

    // How many there are.
    pub fn len(&self) -> usize
        ensures value { result ≡ length (names_in self.now) }
        ensures few { result ≤ 4 }
    {
        self.used
    }

    // Whether there is no room for a name more.
    pub fn is_full(&self) -> bool
        ensures { result ≡ leb 4 (length (names_in self.now)) }
    {
        4 <= self.used
    }

    // Puts a name after the others.
    pub fn push(&mut self, name: Name)
        requires { length (names_in self.old) < 4 }
        ensures { names_in self.new ≡ names_in self.old ++ (name ∷ []) }
    {
        self.places[self.used] = name;
        self.used += 1;
    }
}
