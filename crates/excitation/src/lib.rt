// Excitations and uncertainty sets, joined by a constant table.
#![tactic(auto)]

ghost use Rattle.std.specs.Prelude.{◌≡◌, ◌≤◌};
ghost use Rattle.excitation.specs.Excitation.{levels_of, excitation_of};
ghost use Rattle.excitation.specs.UncertaintySet.{code, decode, member, single, join_sets, invert_set, held_before_set, held_after_set};
ghost use Rattle.excitation.specs.Table.{start_of, join_table};

mod tables;

use tables::{HELD_AFTER, HELD_BEFORE, JOINS};

// Document 01's excitation: a level before and a level after.
#[derive(Clone, Copy, PartialEq, Eq)]
pub struct Excitation {
    pub before: bool,
    pub after: bool,
}

// Document 01's l, h, hl and lh.
pub const L: Excitation = Excitation {
    before: false,
    after: false,
};

pub const H: Excitation = Excitation {
    before: true,
    after: true,
};

pub const HL: Excitation = Excitation {
    before: true,
    after: false,
};

pub const LH: Excitation = Excitation {
    before: false,
    after: true,
};

// The excitation of a pattern's byte. Bytes above 3 are refused before.
impl From<u8> for Excitation {
    ghost from_gives = { λ byte e. e ≡ excitation_of byte };

    fn from(byte: u8) -> Excitation {
        match byte {
            1 => H,
            2 => HL,
            3 => LH,
            _ => L,
        }
    }
}

// How a multi-pin gate joins its pins.
#[derive(Clone, Copy, PartialEq, Eq)]
pub enum Join {
    And,
    Or,
    Xor,
}

// Where the 256 entries of a join start in the table.
fn start_of(by: Join) -> usize
    ensures { (result ≡ start_of by) × (result ≤ 512) }
{
    match by {
        Join::And => 0,
        Join::Or => 256,
        Join::Xor => 512,
    }
}

// The table of set joins: 256 entries for each of AND, OR and XOR. Whoever joins many sets keeps one and lends it.
#[derive(Clone, Copy)]
pub struct JoinTable {
    pub entries: [u8; 768],
    pub ghost right: { entries ≡ join_table },
}

// The table to keep.
pub fn joins() -> JoinTable
    ensures { result.entries ≡ join_table }
{
    JoinTable { entries: JOINS }
}

// Document 01's uncertainty set, by its code as byte 18 has it. The four high bits say nothing.
#[derive(Clone, Copy)]
pub struct Set {
    pub code: u8,
}

// The set whose one member is an excitation.
#[tactic(auto, unfolding(crate::specs::UncertaintySet::code))]
pub fn single(e: Excitation) -> Set
    ensures { result.code ≡ code (single e) }
{
    let code = match (e.before, e.after) {
        (false, false) => 1,
        (true, true) => 2,
        (true, false) => 4,
        (false, true) => 8,
    };
    Set { code }
}

impl Set {
    // Every join of a member of each, by the lent table of joins.
    pub fn join(self, other: Set, joins: &JoinTable, by: Join) -> Set
        ensures { result.code ≡ code (join_sets (levels_of by) (decode self.code) (decode other.code)) }
    {
        let start = start_of(by);
        let first = self.code % 16;
        let second = other.code % 16;
        let entry: usize = start + 16 * (first as usize) + (second as usize);
        Set {
            code: joins.entries[entry],
        }
    }

    // Every member turned over: l and h change places, and so do hl and lh.
    pub fn invert(self) -> Set
        ensures { result.code ≡ code (invert_set (decode self.code)) }
    {
        let n = self.code % 16;
        Set {
            code: (n & 5) * 2 + (n & 10) / 2,
        }
    }

    // Whether an excitation is a member.
    #[tactic(auto, unfolding(crate::specs::UncertaintySet::decode, crate::specs::UncertaintySet::member))]
    pub fn contains(self, e: Excitation) -> bool
        ensures { result ≡ member e (decode self.code) }
    {
        let n = self.code;
        match (e.before, e.after) {
            (false, false) => n % 2 == 1,
            (true, true) => n / 2 % 2 == 1,
            (true, false) => n / 4 % 2 == 1,
            (false, true) => n / 8 % 2 == 1,
        }
    }

    // The members' first levels held.
    pub fn held_before(self) -> Set
        ensures { result.code ≡ code (held_before_set (decode self.code)) }
    {
        let n = self.code % 16;
        Set {
            code: HELD_BEFORE[n as usize],
        }
    }

    // The members' second levels held.
    pub fn held_after(self) -> Set
        ensures { result.code ≡ code (held_after_set (decode self.code)) }
    {
        let n = self.code % 16;
        Set {
            code: HELD_AFTER[n as usize],
        }
    }
}
