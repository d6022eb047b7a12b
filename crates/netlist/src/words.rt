// Words, letter by letter, and what they name.
ghost use Rattle.std.specs.Prelude.{◌∷◌, [], ◌++◌, ◌≡◌, ◌+◌, ◌*◌, ◌%◌};
ghost use Rattle.netlist.specs.Names.{is_name};
ghost use Rattle.netlist.specs.Forms.{pins_allowed};
ghost use Rattle.netlist.specs.Kept.{word_kept, short_number, kind_kept, OfLetters};

use super::{Name, Word};

// The number of a word of seven letters at most, with a letter more. Such a number is below 256 ^ 7, which is the number here; of any
// other, which is no such word's, the remainder is taken, so that nothing wraps.
fn followed(number: u64, letter: u8) -> u64
    ensures { result ≡ 256 * (number % 72057594037927936) + letter }
{
    256 * (number % 72057594037927936) + u64::from(letter)
}

impl Word {
    // A letter more.
    pub fn with(self, letter: u8) -> Word
        ensures { OfLetters self (λ letters. result ≡ word_kept (letters ++ (letter ∷ []))) }
    {
        let name = self.name;
        let length = self.length;
        if length < 8 {
            return Word {
                name: Name {
                    first: followed(name.first, letter),
                    second: name.second,
                },
                length: length + 1,
            };
        }
        if length < 16 {
            return Word {
                name: Name {
                    first: name.first,
                    second: followed(name.second, letter),
                },
                length: length + 1,
            };
        }
        Word { name, length: 17 }
    }

    // Whether a word is a name, by its length.
    pub fn is_name(self) -> bool
        ensures { OfLetters self (λ letters. result ≡ is_name letters) }
    {
        block::in_range(self.length, 1, 16)
    }

    // The number of a word of eight letters at most, 0 of a longer one.
    pub fn short(self) -> u64
        ensures { OfLetters self (λ letters. result ≡ short_number letters) }
    {
        if self.length <= 8 { self.name.first } else { 0 }
    }

    // The kind that a word names, if any: AND, NAND, OR, NOR, XOR, XNOR, NOT, BUF and BUFF, by the numbers of the words, which have two
    // hexadecimal digits for each letter.
    pub fn kind(self) -> Option<usize>
        ensures { OfLetters self (λ letters. result ≡ kind_kept letters) }
    {
        match self.short() {
            0x414e44 => Some(2),
            0x4e414e44 => Some(3),
            0x4f52 => Some(4),
            0x4e4f52 => Some(5),
            0x584f52 => Some(6),
            0x584e4f52 => Some(7),
            0x4e4f54 => Some(8),
            0x425546 | 0x42554646 => Some(9),
            _ => None,
        }
    }
}

// Whether a gate of a kind may have so many pins.
pub fn pin_count_right(kind: usize, used: usize) -> bool
    ensures { result ≡ pins_allowed kind used }
{
    let rule = block::gate_rule(kind);
    block::in_range(used, rule.least, rule.most)
}
