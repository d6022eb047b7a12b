// The first place at which a value is greatest.
ghost use Rattle.std.specs.Prelude.{◌≡◌, ℕ, ◌<◌, ◌≤◌};
ghost use Rattle.laws.specs.Below.{argmax};
ghost use Rattle.numbers.specs.Greatest.{Computes};

// The first of the first n places at which a value is greatest: what f is, for any f that `value` computes there.
pub fn first_greatest<F: Fn(usize) -> u64>(n: usize, value: F) -> usize
    requires some { 1 ≤ n }
    requires callable { (i : ℕ) → i < n → F.pre value i }
    ensures inside { result < n }
    ensures first { (f : ℕ → ℕ) → Computes (F.post value) n f → result ≡ argmax n f }
{
    let mut best: usize = 0;
    let mut most = value(0);
    for i in 1..n {
        let here = value(i);
        if most < here {
            best = i;
            most = here;
        }
    }
    best
}
