// Joins of 64 sets at once, by a function of two levels.
ghost use Rattle.std.specs.Prelude.{ℕ, ◌<◌, false, ◌&&◌, ◌≡◌};
ghost use Rattle.std.specs.Bool.{xor};
ghost use Rattle.excitation.specs.UncertaintySet.{join_sets, invert_set};
ghost use Rattle.parts.specs.Parts.{set_at, numbered};

use super::Part;

impl Part {
    // Every set turned over.
    pub fn invert(self) -> Part
        ensures { (k : ℕ) → set_at result k ≡ invert_set (set_at self k) }
    {
        Part {
            l: self.h,
            h: self.l,
            hl: self.lh,
            lh: self.hl,
        }
    }

    // Every set joined by AND.
    fn and(self, other: Part) -> Part
        ensures { (k : ℕ) → set_at result k ≡ join_sets ◌&&◌ (set_at self k) (set_at other k) }
    {
        let (a, b) = (self, other);
        Part {
            l: (a.l & b.some()) | (b.l & a.some()) | (a.hl & b.lh) | (a.lh & b.hl),
            h: a.h & b.h,
            hl: (a.hl & (b.h | b.hl)) | (a.h & b.hl),
            lh: (a.lh & (b.h | b.lh)) | (a.h & b.lh),
        }
    }

    // Every set joined by XOR.
    fn xor(self, other: Part) -> Part
        ensures { (k : ℕ) → set_at result k ≡ join_sets xor (set_at self k) (set_at other k) }
    {
        let (a, b) = (self, other);
        Part {
            l: (a.l & b.l) | (a.h & b.h) | (a.hl & b.hl) | (a.lh & b.lh),
            h: (a.l & b.h) | (a.h & b.l) | (a.hl & b.lh) | (a.lh & b.hl),
            hl: (a.l & b.hl) | (a.hl & b.l) | (a.h & b.lh) | (a.lh & b.h),
            lh: (a.l & b.lh) | (a.lh & b.l) | (a.h & b.hl) | (a.hl & b.h),
        }
    }

    // Every set joined by the function that gives its first level: these sets where the other has a member.
    fn first(self, other: Part) -> Part
        ensures { (k : ℕ) → set_at result k ≡ join_sets (λ x y. x) (set_at self k) (set_at other k) }
    {
        let some = other.some();
        self.map(|word| word & some)
    }

    // Every set joined by the function that gives 0 for all levels: l where both have a member.
    fn low(self, other: Part) -> Part
        ensures { (k : ℕ) → set_at result k ≡ join_sets (λ x y. false) (set_at self k) (set_at other k) }
    {
        Part {
            l: self.some() & other.some(),
            h: 0,
            hl: 0,
            lh: 0,
        }
    }
}

// Every set joined by the function of two levels with the number f: 8 is AND, 14 OR, 6 XOR.
#[tactic(auto, using(crate::proofs::Joins::by_numbers))]
pub fn join_parts(a: Part, b: Part, f: u8) -> Part
    requires { f < 16 }
    ensures { (k : ℕ) → set_at result k ≡ join_sets (numbered f) (set_at a k) (set_at b k) }
{
    // Form kept: docs/DECISIONS.md, "Words beside the table": words are joined by the number of any function of two levels, which is read
    // off the table of joins.
    match f {
        1 => a.invert().and(b.invert()),
        2 => a.invert().and(b),
        3 => a.first(b).invert(),
        4 => a.and(b.invert()),
        5 => b.first(a).invert(),
        6 => a.xor(b),
        7 => a.and(b).invert(),
        8 => a.and(b),
        9 => a.xor(b).invert(),
        10 => b.first(a),
        11 => a.and(b.invert()).invert(),
        12 => a.first(b),
        13 => a.invert().and(b).invert(),
        14 => a.invert().and(b.invert()).invert(),
        15 => a.low(b).invert(),
        _ => a.low(b),
    }
}
