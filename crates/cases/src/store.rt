// The case store: a record of 72 bytes for each case, 64 bytes of input sets and 8 bytes of upper number, low first.
ghost use Rattle.std.specs.Prelude.{◌≡◌, ◌+◌, ◌*◌, ◌≤◌, ◌<◌, length, take, drop};
ghost use Rattle.laws.specs.Below.{argmax};
ghost use Rattle.laws.specs.Rewritten.{Rewritten};
ghost use Rattle.cases.specs.Records.{upper_in, HasCase, record_byte};

use super::CaseNumber;

// Form kept: what may not change: the search calls these functions with the lent store and a case's number, and `HasCase` in their contracts
// says what the two have to do with each other.

// The 64 bytes of a case's sets.
pub fn read_sets(store: &[u8], case: CaseNumber) -> [u8; 64]
    requires { HasCase store.now case.0 }
    ensures { result ≡ take 64 (drop (72 * case.0) store.now) }
{
    let start = case.start();
    let mut codes = [0u8; 64];
    codes.copy_from_slice(&store[start..start + 64]);
    codes
}

// The upper number of a case.
pub fn upper(store: &[u8], case: CaseNumber) -> u64
    requires { HasCase store.now case.0 }
    ensures { result ≡ upper_in store.now case.0 }
{
    numbers::read_word(store, case.start() + 64)
}

// Writes the record of a case.
pub fn write_case(store: &mut [u8], case: CaseNumber, codes: &[u8; 64], upper: u64)
    requires { HasCase store.old case.0 }
    ensures { Rewritten (record_byte codes.now upper) (72 * case.0) 72 store.old store.new }
{
    let start = case.start();
    store[start..start + 64].copy_from_slice(codes);
    numbers::write_word(store, start + 64, upper);
}

// The first of the first n cases whose upper number is the greatest.
pub fn argmax(store: &[u8], n: usize) -> CaseNumber
    requires { (72 * n ≤ length store.now) × (1 ≤ n) × (n ≤ 30001) }
    ensures { (result.0 ≡ argmax n (upper_in store.now)) × (result.0 < n) }
{
    CaseNumber(numbers::first_greatest(n, |k| upper(store, CaseNumber(k))))
}
