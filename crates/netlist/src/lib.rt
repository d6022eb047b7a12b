// Bench text: the line, its words and names, and the form that it has.
#![tactic(auto)]

ghost use Rattle.std.specs.Prelude.{[], MatchOption, option_map, ◌≡◌, ◌==◌};
ghost use Rattle.std.specs.List.{position};
ghost use Rattle.netlist.specs.Lines.{content};
ghost use Rattle.netlist.specs.Forms.{parts_of, declared, assigned, line_form};
ghost use Rattle.netlist.specs.Kept.{LineSplit, line_in, line_kept, line_name, line_is_gate, OfLetters};

mod brackets;
mod pieces;
mod places;
mod words;

pub use places::Names;

// A name as two numbers: its first eight letters, and the next eight. The default is no name.
#[derive(Clone, Copy, Default, PartialEq, Eq)]
pub struct Name {
    pub first: u64,
    pub second: u64,
}

// A word as it is read: its first sixteen letters, and how many it has, 17 standing for all that are too many. The default has none.
#[derive(Clone, Copy, Default)]
pub struct Word {
    pub name: Name,
    pub length: usize,
}

// What stands after a word.
#[derive(Clone, Copy)]
pub enum Mark {
    Equals,
    Open,
    Comma,
    Close,
    Other,
    End,
}

// A word, the mark after it, and what is left of the line after that.
#[derive(Clone, Copy)]
pub struct Piece<'a> {
    pub word: Word,
    pub mark: Mark,
    pub rest: &'a [u8],
}

// A gate as its line has it: its kind, as document 01 numbers kinds, its name and its pins' names, as many as its pin count.
#[derive(Clone, Copy)]
pub struct GateLine {
    pub kind: usize,
    pub name: Name,
    pub pins: Names,
}

// A line that is right by itself, by the record that it gives: none, an input's or a gate's.
#[derive(Clone, Copy)]
pub enum Line {
    Nothing,
    Input(Name),
    Gate(GateLine),
}

impl Line {
    // The name that a line gives to a record, if any.
    pub fn name(&self) -> Option<Name>
        ensures { result ≡ line_name (line_in self.now) }
    {
        match self {
            Line::Nothing => None,
            Line::Input(name) => Some(*name),
            Line::Gate(gate) => Some(gate.name),
        }
    }

    // Whether a line is a gate.
    pub fn is_gate(&self) -> bool
        ensures { result ≡ line_is_gate (line_in self.now) }
    {
        match self {
            Line::Nothing | Line::Input(_) => false,
            Line::Gate(_) => true,
        }
    }
}

// Where the first line of a text ends, if a byte 10 ends it.
// Not put into its caller, where the loop would count along where the next line starts, an instruction more for each byte.
#[inline(never)]
fn first_end(text: &[u8]) -> Option<usize>
    ensures { result ≡ position (λ byte. byte == 10) text.now }
{
    text.iter().position(|byte| *byte == 10)
}

// The first line of a text, and what is left of the text after it; an empty text has none.
pub fn split_line(text: &[u8]) -> Option<(&[u8], &[u8])>
    ensures { MatchOption result (text.now ≡ []) (λ split. LineSplit text.now split.0.now split.1.now) }
{
    match first_end(text) {
        Some(end) => Some((&text[..end], &text[end + 1..])),
        None if text.is_empty() => None,
        None => Some((text, &[])),
    }
}

// INPUT or OUTPUT, by the number of the word, from the word before the bracket and what is left of the line after it.
fn declaration(word: Word, rest: &[u8]) -> Option<Line>
    ensures { OfLetters word (λ letters. option_map line_in result ≡ line_kept (declared letters (parts_of (content rest.now)))) }
{
    let names = brackets::read_names(rest)?;
    if names.len() != 1 {
        return None;
    }
    match word.short() {
        0x494e505554 => Some(Line::Input(names.as_slice()[0])),
        0x4f5554505554 => Some(Line::Nothing),
        _ => None,
    }
}

// A gate, from its name and what is left of the line after the `=`.
fn assignment(name: Word, rest: &[u8]) -> Option<Line>
    ensures { OfLetters name (λ letters. option_map line_in result ≡ line_kept (assigned letters (parts_of (content rest.now)))) }
{
    let piece = pieces::read_piece(rest);
    let Mark::Open = piece.mark else {
        return None;
    };
    let pins = brackets::read_names(piece.rest)?;
    let kind = piece.word.kind()?;
    let right = name.is_name() & words::pin_count_right(kind, pins.len());
    right.then_some(Line::Gate(GateLine {
        kind,
        name: name.name,
        pins,
    }))
}

// Reads a line: none where it fits no form.
pub fn read_line(line: &[u8]) -> Option<Line>
    ensures { option_map line_in result ≡ line_kept (line_form line.now) }
{
    let first = pieces::read_piece(line);
    match first.mark {
        Mark::End => (first.word.length == 0).then_some(Line::Nothing),
        Mark::Open => declaration(first.word, first.rest),
        Mark::Equals => assignment(first.word, first.rest),
        Mark::Comma | Mark::Close | Mark::Other => None,
    }
}
