// Names in brackets.
ghost use Rattle.std.specs.Prelude.{◌≡◌, option_map};
ghost use Rattle.netlist.specs.Lines.{content};
ghost use Rattle.netlist.specs.Forms.{parts_of, ended};
ghost use Rattle.netlist.specs.Kept.{names_in, brackets_kept};

use super::{Mark, Names, pieces};

// Whether nothing more stands on a line.
fn ended(line: &[u8]) -> bool
    ensures { result ≡ ended (parts_of (content line.now)) }
{
    let piece = pieces::read_piece(line);
    let Mark::End = piece.mark else {
        return false;
    };
    piece.word.length == 0
}

// Reads the names that a line starts with after an opening bracket, up to the other one, which ends it: none where they are not one to
// four names so closed.
pub fn read_names(line: &[u8]) -> Option<Names>
    ensures { option_map names_in result ≡ brackets_kept (parts_of (content line.now)) }
{
    let mut names = Names::new();
    let mut rest = line;
    while !names.is_full() {
        let piece = pieces::read_piece(rest);
        if !piece.word.is_name() {
            return None;
        }
        names.push(piece.word.name);
        rest = piece.rest;
        match piece.mark {
            Mark::Comma => {}
            // Form kept: it was tried and misses a bar of speed: `then_some` copies the names, and Bench took a tenth more instructions on
            // lines of OUTPUT.
            Mark::Close => {
                if ended(rest) {
                    return Some(names);
                }
                return None;
            }
            Mark::Equals | Mark::Open | Mark::Other | Mark::End => return None,
        }
    }
    None
}
