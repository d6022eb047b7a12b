// Check 16, of a pattern's bytes.
ghost use Rattle.std.specs.Prelude.{◌≡◌, ◌*◌, ◌≤◌, length};
ghost use Rattle.block.specs.Verdict.{verdict};
ghost use Rattle.operation.specs.Pattern.{byte_allowed, byte_checks};

use block::{Net, Reason, Record, Refusal, check};
use excitation::{Excitation, Set};

// Whether a pattern's byte is one that byte 18 of an input allows.
fn byte_allowed(input: Record, byte: u8) -> bool
    ensures { result ≡ byte_allowed input.entry.file.now input.entry.net.0 byte }
{
    let set = Set {
        code: input.allowed() as u8,
    };
    (byte <= 3) & set.contains(Excitation::from(byte))
}

// Check 16, on the bytes of the inputs in order.
pub fn check_pattern(file: &[u8], inputs: usize, pattern: &[u8]) -> Result<(), Refusal>
    requires { (20 * inputs ≤ length file.now) × (inputs ≤ 64) × (length pattern.now ≡ 64) }
    ensures { result ≡ verdict (byte_checks file.now pattern.now inputs) }
{
    for net in 0..inputs {
        let allowed = byte_allowed(Record::of(file, Net(net)), pattern[net]);
        check(Reason::WrongPatternByte, net as u64, allowed)?;
    }
    Ok(())
}
