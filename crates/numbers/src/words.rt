// Words in bytes, lowest first.
ghost use Rattle.std.specs.Prelude.{◌+◌, ◌/◌, ◌%◌, ◌^◌, ◌≤◌, ◌≡◌, length};
ghost use Rattle.laws.specs.Rewritten.{Rewritten};
ghost use Rattle.numbers.specs.Words.{word_from};

// The word of the eight bytes from a place on.
pub fn read_word(bytes: &[u8], at: usize) -> u64
    requires { at + 8 ≤ length bytes.now }
    ensures { result ≡ word_from 3 bytes.now at }
{
    u64::from_le_bytes([
        bytes[at],
        bytes[at + 1],
        bytes[at + 2],
        bytes[at + 3],
        bytes[at + 4],
        bytes[at + 5],
        bytes[at + 6],
        bytes[at + 7],
    ])
}

// A word into the eight bytes from a place on.
pub fn write_word(bytes: &mut [u8], at: usize, word: u64)
    requires { at + 8 ≤ length bytes.old }
    ensures { Rewritten (λ i. word / 256 ^ i % 256) at 8 bytes.old bytes.new }
{
    bytes[at..at + 8].copy_from_slice(&word.to_le_bytes());
}
