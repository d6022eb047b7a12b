// The row of one excitation of a net: four words, a bit for each tick at which the net's set has it.
ghost use Rattle.std.specs.Prelude.{◌+◌, ◌*◌, ◌≤◌, ◌<◌, ◌≡◌, length};
ghost use Rattle.rows.specs.Rows.{HasRow, place_of, RowRead, RowWritten};

use excitation::Excitation;

// Form kept: what may not change: the crates above call `read_row` and `write_row` with the lent work buffer and a net, and `HasRow` in
// their contracts says what the two have to do with each other.

// Where the word of an excitation stands in a part.
#[tactic(auto, unfolding(crate::specs::Rows::place_of))]
fn place(e: Excitation) -> usize
    ensures { (result ≡ place_of e) × (result ≤ 24) }
{
    match (e.before, e.after) {
        (false, false) => 0,
        (true, true) => 8,
        (true, false) => 16,
        (false, true) => 24,
    }
}

// The ticks at which a net's sets have an excitation.
pub fn read_row(work: &[u8], net: usize, e: Excitation) -> [u64; 4]
    requires { HasRow work.now net }
    ensures { RowRead e net work.now result }
{
    let at = 160 * net + place(e);
    [
        numbers::read_word(work, at),
        numbers::read_word(work, at + 32),
        numbers::read_word(work, at + 64),
        numbers::read_word(work, at + 96),
    ]
}

// These are the ticks at which a net's sets have an excitation; its other members stay.
pub fn write_row(work: &mut [u8], net: usize, e: Excitation, row: &[u64; 4])
    requires { HasRow work.old net }
    ensures { RowWritten e net row.now work.old work.new }
{
    let at = 160 * net + place(e);
    for part in 0..4 {
        numbers::write_word(work, at + 32 * part, row[part]);
    }
}
