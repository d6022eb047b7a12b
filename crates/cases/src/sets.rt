// The sets of a case, by their codes: a byte for each input.
ghost use Rattle.std.specs.Prelude.{◌≡◌, ◌≤◌, ◌<◌, length, get_or};
ghost use Rattle.laws.specs.Rewritten.{Rewritten};
ghost use Rattle.excitation.specs.Excitation.{same, byte_of};
ghost use Rattle.excitation.specs.UncertaintySet.{code, decode, single, sets_in};
ghost use Rattle.cases.specs.Store.{pattern_byte};
ghost use Rattle.cases.specs.Records.{ProbeCodes, child_codes};
ghost use Rattle.cases.specs.Case.{undecided, decided, first_allowed, probe};

use block::Net;
use excitation::{Excitation, Set};

// Document 01's excitations in the order of their bytes, in which the children of a case are made.
pub const EXCITATIONS: [Excitation; 4] = [
    excitation::L,
    excitation::H,
    excitation::HL,
    excitation::LH,
];

// Whether a set has more than one member.
#[tactic(auto, using(crate::proofs::Codes::undecided_code))]
pub fn is_undecided(code: u8) -> bool
    ensures { result ≡ undecided (decode code) }
{
    1 < code % 2 + code / 2 % 2 + code / 4 % 2 + code / 8 % 2
}

// Whether every input is decided.
pub fn is_decided(codes: &[u8], inputs: usize) -> bool
    requires { inputs ≤ length codes.now }
    ensures { result ≡ decided (sets_in inputs codes.now) }
{
    codes[..inputs].iter().all(|code| !is_undecided(*code))
}

// A set's first allowed of lh, hl, h, l.
#[tactic(auto, unfolding(crate::specs::Case::first_allowed))]
pub fn first_allowed(code: u8) -> Excitation
    ensures { result ≡ first_allowed (decode code) }
{
    let set = Set { code };
    if set.contains(excitation::LH) {
        return excitation::LH;
    }
    if set.contains(excitation::HL) {
        return excitation::HL;
    }
    if set.contains(excitation::H) {
        return excitation::H;
    }
    excitation::L
}

// Whether an excitation is a set's first allowed.
pub fn is_first_allowed(code: u8, e: Excitation) -> bool
    ensures { result ≡ same e (first_allowed (decode code)) }
{
    let first = first_allowed(code);
    e.before == first.before && e.after == first.after
}

// The byte by which a pattern has an excitation.
#[tactic(auto, unfolding(excitation::specs::Excitation::byte_of))]
fn byte_of(e: Excitation) -> u8
    ensures { result ≡ byte_of e }
{
    match (e.before, e.after) {
        (false, false) => 0,
        (true, true) => 1,
        (true, false) => 2,
        (false, true) => 3,
    }
}

// Writes the codes of the single sets of a case's probe, a byte for each input.
pub fn write_probe_codes(codes: &[u8], inputs: usize, singles: &mut [u8])
    requires { (inputs ≤ length codes.now) × (inputs ≤ length singles.old) }
    ensures { Rewritten (λ net. code (single (first_allowed (decode (get_or codes.now net 0))))) 0 inputs singles.old singles.new }
{
    for net in 0..inputs {
        singles[net] = excitation::single(first_allowed(codes[net])).code;
    }
}

// The same codes by value, and 0 past the inputs.
pub fn probe_codes(codes: &[u8], inputs: usize) -> [u8; 64]
    requires { (inputs ≤ length codes.now) × (inputs ≤ 64) }
    ensures { ProbeCodes inputs codes.now result }
{
    let mut singles = [0u8; 64];
    write_probe_codes(codes, inputs, &mut singles);
    singles
}

// Writes a case's probe, a byte for each input.
pub fn write_probe(codes: &[u8], inputs: usize, pattern: &mut [u8])
    requires { (inputs ≤ length codes.now) × (inputs ≤ length pattern.old) }
    ensures { Rewritten (pattern_byte (probe (sets_in inputs codes.now))) 0 inputs pattern.old pattern.new }
{
    for net in 0..inputs {
        pattern[net] = byte_of(first_allowed(codes[net]));
    }
}

// The codes of a child's sets: those of its parent, but for the input that is split, whose set has one excitation.
pub fn child_codes(parent: &[u8; 64], input: Net, e: Excitation) -> [u8; 64]
    requires { input.0 < 64 }
    ensures { result ≡ child_codes parent.now input.0 e }
{
    let net = input.0;
    let mut codes = *parent;
    codes[net] = excitation::single(e).code;
    codes
}
