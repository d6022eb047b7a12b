// The four words of a part, of which the same is made.
ghost use Rattle.std.specs.Prelude.{ℕ, ◌≡◌};
ghost use Rattle.bits.specs.Bits.{bit_at};
ghost use Rattle.parts.specs.Parts.{has_some, set_at};

use super::Part;

impl Part {
    // What a function makes of each word.
    pub fn map<F: Fn(u64) -> u64>(self, f: F) -> Part
        requires { F.IsAlwaysCallable f }
        ensures l { F.post f self.l result.l }
        ensures h { F.post f self.h result.h }
        ensures hl { F.post f self.hl result.hl }
        ensures lh { F.post f self.lh result.lh }
    {
        Part {
            l: f(self.l),
            h: f(self.h),
            hl: f(self.hl),
            lh: f(self.lh),
        }
    }

    // What a function makes of each word and the other part's.
    pub fn zip<F: Fn(u64, u64) -> u64>(self, other: Part, f: F) -> Part
        requires { F.IsAlwaysCallable f }
        ensures l { F.post f self.l other.l result.l }
        ensures h { F.post f self.h other.h result.h }
        ensures hl { F.post f self.hl other.hl result.hl }
        ensures lh { F.post f self.lh other.lh result.lh }
    {
        Part {
            l: f(self.l, other.l),
            h: f(self.h, other.h),
            hl: f(self.hl, other.hl),
            lh: f(self.lh, other.lh),
        }
    }

    // A word with a bit for each tick at which the set has a member.
    pub fn some(self) -> u64
        ensures { (k : ℕ) → bit_at result k ≡ has_some (set_at self k) }
    {
        self.l | self.h | self.hl | self.lh
    }
}
