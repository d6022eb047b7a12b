// The number of a function of two levels, read off the table of joins.
ghost use Rattle.std.specs.Prelude.{◌≡◌, eqb, ◌<◌};
ghost use Rattle.laws.specs.Below.{indicator};
ghost use Rattle.excitation.specs.Excitation.{levels_of};
ghost use Rattle.parts.specs.Parts.{number_of};

use excitation::{Join, JoinTable, Set};

// The level that the table gives for two levels held, 0 or 1: the join of the sets of one member, l (1) or h (2).
fn level_of(joins: &JoinTable, by: Join, first: u8, second: u8) -> u8
    requires { (first < 2) × (second < 2) }
    ensures { (result ≡ indicator (levels_of by (eqb first 1) (eqb second 1))) × (result < 2) }
{
    let one = Set { code: first + 1 };
    let other = Set { code: second + 1 };
    one.join(other, joins, by).code / 2
}

// The number of the function by which a gate joins its pins.
pub fn function_number(joins: &JoinTable, by: Join) -> u8
    ensures { (result ≡ number_of (levels_of by)) × (result < 16) }
{
    level_of(joins, by, 0, 0)
        + 2 * level_of(joins, by, 0, 1)
        + 4 * level_of(joins, by, 1, 0)
        + 8 * level_of(joins, by, 1, 1)
}
