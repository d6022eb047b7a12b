// The runs of a row of 256 bits, found, counted and joined by words. A row is four words, a bit for each tick.
#![tactic(auto)]

ghost use Rattle.std.specs.Prelude.{ℕ, ◌+◌, ◌-◌, ◌*◌, ◌/◌, ◌≤◌, ◌<◌, min, not, cond, ◌&&◌, ◌≡◌, eqb, ltb, length};
ghost use Rattle.laws.specs.Settled.{SettledAfter};
ghost use Rattle.bits.specs.Bits.{bit_at, row_bit};
ghost use Rattle.runs.specs.Rows.{runs_in, NextAt, RangeSet};

// The first tick, not before `from`, at which the row has this level; 256 where there is none.
pub fn next_at(row: &[u64; 4], from: usize, level: bool) -> usize
    requires { from ≤ 256 }
    ensures { NextAt level row.now from result }
{
    let flip = if level { 0 } else { u64::MAX };
    let mut at = from;
    // Form kept: the new form is no plainer: `at` goes from a tick to the start of the next word, and a `for` over the words would carry that
    // tick beside its own index.
    while at < 256 {
        let word = (row[at / 64] ^ flip) >> (at % 64);
        if word != 0 {
            return at + (word.trailing_zeros() as usize);
        }
        at = 64 * (at / 64 + 1);
    }
    at
}

// The ticks of a word at which a run begins: its set bits whose bit before is clear. Before its first bit stands the last of the word
// before.
pub fn starts(word: u64, before: u64) -> u64
    ensures { (k : ℕ) → k < 64 → bit_at result k ≡ bit_at word k && not (cond (eqb k 0) (bit_at before 63) (bit_at word (k - 1))) }
{
    word & !((word << 1) | (before >> 63))
}

// How many words hold a row up to the tick after tick `last`.
pub fn words_until(last: usize) -> usize
    ensures { result ≡ min ((last + 1) / 64 + 1) 4 }
{
    (last.saturating_add(1) / 64 + 1).min(4)
}

// How many runs a row has that is the same after tick `last`: in each word the set bits whose bit before is clear are counted. None
// begins after the tick that follows `last`.
pub fn count_runs(row: &[u64; 4], last: usize) -> usize
    requires { SettledAfter last (row_bit row.now) }
    ensures { result ≡ length (runs_in row.now) }
{
    let mut count: usize = 0;
    let mut before: u64 = 0;
    for &word in &row[..words_until(last)] {
        count += starts(word, before).count_ones() as usize;
        before = word;
    }
    count
}

// The word of the k lowest bits.
fn lowest(k: usize) -> u64
    requires { k ≤ 64 }
    ensures { (j : ℕ) → j < 64 → bit_at result j ≡ ltb j k }
{
    if k < 64 {
        return (1 << k) - 1;
    }
    u64::MAX
}

// Of the 64 ticks of word w of a row, those before a tick.
pub fn ticks_before(tick: usize, w: usize) -> u64
    requires { w < 4 }
    ensures { (k : ℕ) → k < 64 → bit_at result k ≡ ltb (64 * w + k) tick }
{
    lowest(tick.saturating_sub(64 * w).min(64))
}

// Sets the ticks of a row from tick `from` to before tick `to`.
pub fn set_range(row: &mut [u64; 4], from: usize, to: usize)
    ensures { RangeSet from to row.old row.new }
{
    for (w, word) in row.iter_mut().enumerate() {
        *word |= ticks_before(to, w) & !ticks_before(from, w);
    }
}
