// Sets moved by some ticks, held, chosen and compared.
ghost use Rattle.std.specs.Prelude.{ℕ, ◌+◌, ◌-◌, ◌≤◌, ◌<◌, false, cond, ◌≡◌, ltb};
ghost use Rattle.bits.specs.Bits.{bit_at};
ghost use Rattle.excitation.specs.UncertaintySet.{decode};
ghost use Rattle.parts.specs.Parts.{set_at};

use super::Part;
use excitation::Set;

// The 64 bits d ticks later: the first d come from the word before.
fn shift_word(before: u64, word: u64, d: u64) -> u64
    requires { (1 ≤ d) × (d < 64) }
    ensures { (k : ℕ) → k < 64 → bit_at result k ≡ cond (ltb k d) (bit_at before (k + 64 - d)) (bit_at word (k - d)) }
{
    (word << d) | (before >> (64 - d))
}

// A word whose bits are all the same.
fn all_bits(set: bool) -> u64
    ensures { (k : ℕ) → k < 64 → bit_at result k ≡ set }
{
    if set { u64::MAX } else { 0 }
}

// The bits of the first word at the ticks of a word, those of the second at the others.
fn choose_word(a: u64, b: u64, ticks: u64) -> u64
    ensures { (k : ℕ) → k < 64 → bit_at result k ≡ cond (bit_at ticks k) (bit_at a k) (bit_at b k) }
{
    (a & ticks) | (b & !ticks)
}

impl Part {
    // The same set at 64 ticks.
    pub fn held(set: Set) -> Part
        ensures { (k : ℕ) → k < 64 → set_at result k ≡ decode set.code }
    {
        let code = set.code;
        Part {
            l: all_bits(code % 2 == 1),
            h: all_bits(code / 2 % 2 == 1),
            hl: all_bits(code / 4 % 2 == 1),
            lh: all_bits(code / 8 % 2 == 1),
        }
    }

    // The last of the 64 sets, at every tick.
    pub fn settled(self) -> Part
        ensures { (k : ℕ) → k < 64 → set_at result k ≡ set_at self 63 }
    {
        self.map(|word| all_bits((word >> 63) % 2 == 1))
    }

    // The 64 sets d ticks later: the first d come from the 64 sets before.
    pub fn shifted(self, before: Part, d: u64) -> Part
        requires { (1 ≤ d) × (d < 64) }
        ensures { (k : ℕ) → k < 64 → set_at result k ≡ cond (ltb k d) (set_at before (k + 64 - d)) (set_at self (k - d)) }
    {
        self.zip(before, |word, earlier| shift_word(earlier, word, d))
    }

    // These sets at the ticks of a word, those of the other part at the others.
    pub fn at_ticks(self, ticks: u64, other: Part) -> Part
        ensures { (k : ℕ) → k < 64 → set_at result k ≡ cond (bit_at ticks k) (set_at self k) (set_at other k) }
    {
        self.zip(other, |a, b| choose_word(a, b, ticks))
    }

    // A word with a bit for each tick at which the sets differ.
    pub fn differing(self, other: Part) -> u64
        ensures { (k : ℕ) → (bit_at result k ≡ false → set_at self k ≡ set_at other k) × (set_at self k ≡ set_at other k → bit_at result k ≡ false) }
    {
        self.zip(other, |a, b| a ^ b).some()
    }
}
