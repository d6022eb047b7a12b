// The sheet: its words cleared, and restored from changes, its drop and its quiet tick. Nothing here knows what draws the currents.
#![tactic(auto)]

ghost use Rattle.std.specs.Prelude.{◌≡◌, length};
ghost use Rattle.sheet.specs.Words.{Cleared};

mod drop;
mod quiet;
mod restore;

// Form kept: what may not change: the crates above lend a sheet as a slice, whose length the contracts of `clear`, `restore_rows`,
// `greatest_drop` and `quiet_tick` give.

// A word of a sheet, in microamperes (request 5).
pub type Word = u64;

pub use drop::greatest_drop;
pub use quiet::quiet_tick;
pub use restore::restore_rows;

// A sheet with no current.
pub fn clear(sheet: &mut [Word])
    requires { length sheet.old ≡ 8192 }
    ensures { Cleared sheet.new }
{
    sheet.fill(0);
}
