// A part of a row: 64 sets in 32 bytes.
ghost use Rattle.std.specs.Prelude.{ℕ, ◌+◌, ◌*◌, ◌≤◌, ◌<◌, ◌≡◌, length};
ghost use Rattle.parts.specs.Parts.{set_at};
ghost use Rattle.rows.specs.Rows.{HasRow, set_from, set_in, PartWritten};

use parts::Part;

// Form kept: what may not change: the crates above call `read_part` and `write_part` with the lent work buffer and a net, and `HasRow` in
// their contracts says what the two have to do with each other.

// The 64 sets of the 32 bytes from a place on.
fn read_from(bytes: &[u8], at: usize) -> Part
    requires { at + 32 ≤ length bytes.now }
    ensures { (k : ℕ) → k < 64 → set_at result k ≡ set_from bytes.now at k }
{
    Part {
        l: numbers::read_word(bytes, at),
        h: numbers::read_word(bytes, at + 8),
        hl: numbers::read_word(bytes, at + 16),
        lh: numbers::read_word(bytes, at + 24),
    }
}

// 64 sets into the 32 bytes from a place on.
fn write_from(bytes: &mut [u8], at: usize, sets: Part)
    requires { at + 32 ≤ length bytes.old }
    ensures { PartWritten sets at bytes.old bytes.new }
{
    numbers::write_word(bytes, at, sets.l);
    numbers::write_word(bytes, at + 8, sets.h);
    numbers::write_word(bytes, at + 16, sets.hl);
    numbers::write_word(bytes, at + 24, sets.lh);
}

// The 64 sets of a net from tick 64 × part on.
#[tactic(auto, using(crate::proofs::Rows::part_is))]
pub fn read_part(work: &[u8], net: usize, part: usize) -> Part
    requires { HasRow work.now net × (part < 4) }
    ensures { (k : ℕ) → k < 64 → set_at result k ≡ set_in work.now net (64 * part + k) }
{
    read_from(work, 160 * net + 32 * part)
}

// 64 sets as those of a net from tick 64 × part on.
pub fn write_part(work: &mut [u8], net: usize, part: usize, sets: Part)
    requires { HasRow work.old net × (part < 4) }
    ensures { PartWritten sets (160 * net + 32 * part) work.old work.new }
{
    write_from(work, 160 * net + 32 * part, sets);
}
