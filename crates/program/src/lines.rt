// Lines of text, made word by word.
ghost use Rattle.std.specs.Prelude.{cond, ◌∷◌, [], ◌++◌, ◌≡◌, ◌+◌, ◌≤◌, ◌<◌, ltb, length};
ghost use Rattle.program.specs.Lines.{decimal, written, Added};

use crate::Text;
use itoa::Buffer;

// The character after word k of n: a blank, or the line's end after the last.
pub fn separator(k: usize, n: usize) -> char
    requires { k < n }
    ensures byte { result ≡ cond (ltb (k + 1) n) 32 10 }
    ensures ascii { result < 128 }
{
    if k + 1 < n { ' ' } else { '\n' }
}

// A word more, and the character after it: a blank or the line's end.
// Form kept: `write!` over an `impl Display` was tried, and the proof didn't close. Its contract says what an `Ok` wrote, and not when it
// comes; `printed` cannot fail, and promises the whole text.
pub fn push_word(text: &mut Text, word: &str, end: char)
    requires room { length (written text.old) + length word.now < 320 }
    requires ascii { end < 128 }
    ensures { Added text.old (word.now ++ (end ∷ [])) text.new }
{
    text.push_str(word);
    text.push(end);
}

// A number more, and the character after it.
#[tactic(auto, using(crate::proofs::Decimals::decimal_written))]
pub fn push_number(text: &mut Text, number: u64, end: char)
    requires room { length (written text.old) ≤ 299 }
    requires ascii { end < 128 }
    ensures added { Added text.old (decimal number ++ (end ∷ [])) text.new }
    ensures short { length (written text.new) ≤ length (written text.old) + 21 }
{
    let mut digits = Buffer::new();
    push_word(text, digits.format(number), end);
}
