// Cases of the search: their sets, their records in the case store, and the choice of the input to split.
#![tactic(auto)]

ghost use Rattle.std.specs.Prelude.{◌≡◌, ◌*◌, ◌<◌};

pub mod choice;
pub mod sets;
pub mod store;

// The number of a search case: the position of its record in the case store. It is never read as a net's number.
#[derive(Clone, Copy)]
pub struct CaseNumber(pub usize);

impl CaseNumber {
    // Where the record starts in the store.
    pub fn start(self) -> usize
        requires { self.0 < 30001 }
        ensures { result ≡ 72 * self.0 }
    {
        72 * self.0
    }
}
