// What the kind of a gate decides.
ghost use Rattle.std.specs.Prelude.{◌≡◌};
ghost use Rattle.block.specs.Kind.{kind_of, rule_of};

use excitation::Join;

// The least and the greatest pin count, how the pins are joined, and whether the final result is turned over.
#[derive(Clone, Copy, PartialEq, Eq)]
pub struct Rule {
    pub least: usize,
    pub most: usize,
    pub join: Join,
    pub inverts: bool,
}

// The rule of a kind byte. What is no gate takes no pin count.
pub fn gate_rule(kind: usize) -> Rule
    ensures { result ≡ rule_of (kind_of kind) }
{
    match kind {
        2..=3 => Rule {
            least: 2,
            most: 4,
            join: Join::And,
            inverts: kind == 3,
        },
        4..=5 => Rule {
            least: 2,
            most: 4,
            join: Join::Or,
            inverts: kind == 5,
        },
        6..=7 => Rule {
            least: 2,
            most: 4,
            join: Join::Xor,
            inverts: kind == 7,
        },
        8..=9 => Rule {
            least: 1,
            most: 1,
            join: Join::And,
            inverts: kind == 8,
        },
        _ => Rule {
            least: 1,
            most: 0,
            join: Join::And,
            inverts: false,
        },
    }
}
