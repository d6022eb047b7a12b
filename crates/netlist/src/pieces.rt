// A line, piece by piece.
ghost use Rattle.std.specs.Prelude.{◌≡◌};
ghost use Rattle.netlist.specs.Lines.{is_blank};
ghost use Rattle.netlist.specs.Forms.{mark_of};
ghost use Rattle.netlist.specs.Kept.{PieceSplit};

use super::{Mark, Piece, Word};

// Whether a byte is a blank.
fn is_blank(byte: u8) -> bool
    ensures { result ≡ is_blank byte }
{
    matches!(byte, b'\t' | b'\r' | b' ')
}

// The mark that a byte is.
impl From<u8> for Mark {
    ghost from_gives = { λ byte mark. mark ≡ mark_of byte };

    fn from(byte: u8) -> Mark {
        match byte {
            b'=' => Mark::Equals,
            b'(' => Mark::Open,
            b',' => Mark::Comma,
            b')' => Mark::Close,
            _ => Mark::Other,
        }
    }
}

// Reads the word that a line starts with, and the mark after it.
pub fn read_piece(line: &[u8]) -> Piece<'_>
    ensures { PieceSplit line.now result }
{
    let mut word = Word::default();
    for (at, byte) in line.iter().enumerate() {
        if *byte == b'#' {
            break;
        }
        if byte.is_ascii_alphanumeric() {
            word = word.with(*byte);
        } else if !is_blank(*byte) {
            return Piece {
                word,
                mark: Mark::from(*byte),
                rest: &line[at + 1..],
            };
        }
    }
    Piece {
        word,
        mark: Mark::End,
        rest: &[],
    }
}
