// The program: everything between the bytes that it reads and the bytes that it prints.
#![tactic(auto)]

ghost use Rattle.std.specs.Prelude.{◌++◌, ◌≡◌, ◌≤◌, length};
ghost use Rattle.excitation.specs.Excitation.{excitation_of, pattern_of};
ghost use Rattle.cases.specs.SplitOrder.{cone_order};
ghost use Rattle.program.specs.Lines.{line, written, Printed};
ghost use Rattle.program.specs.Program.{outcome_word, excitation_word, refusal_text, found_words, pattern_words, search_text, program_text};

use arrayvec::ArrayString;
use block::{Reason, Refusal};
use excitation::Excitation;
use lines::{push_number, push_word, separator};
use operation::{Found, Outcome};
use sheet::Word;
use split_order::by_cone;

mod lines;

// The text that the program prints. The longest has 283 bytes: a line of at most 91, of a word of 6 and four numbers of 20 digits, and a
// line of at most 192, of 64 words of 2.
pub type Text = ArrayString<320>;

// The most bytes that the program takes: 256 records.
const MOST: usize = 5120;

// What it searches with, beside one node of 16 resistances of 1.
const HOPS: u64 = 10;

const RATIO: u64 = 1000;

const BUDGET: u64 = 200;

// Room for one byte more, at which the program stops reading.
pub fn room() -> [u8; 5121]
    ensures { 5121 ≡ length result }
{
    [0; 5121]
}

// The line of a refusal: `refused`, number, place.
fn refusal_text(r: Refusal) -> Text
    ensures { Printed (refusal_text r) result }
{
    let mut text = Text::new();
    push_word(&mut text, "refused", ' ');
    push_number(&mut text, r.reason.number(), ' ');
    push_number(&mut text, r.place, '\n');
    text
}

// The word of an outcome.
fn outcome_word(outcome: Outcome) -> &'static str
    ensures { (result.now ≡ outcome_word outcome) × (length result.now ≤ 6) }
{
    match outcome {
        Outcome::Exact => "exact",
        Outcome::Within => "within",
        Outcome::Spent => "spent",
    }
}

// The word of an excitation, by its byte.
#[tactic(auto, unfolding(crate::specs::Program::excitation_word))]
fn excitation_word(byte: u8) -> &'static str
    ensures { (result.now ≡ excitation_word (excitation_of byte)) × (length result.now ≤ 2) }
{
    let excitation = Excitation::from(byte);
    match (excitation.before, excitation.after) {
        (true, true) => "h",
        (true, false) => "hl",
        (false, true) => "lh",
        (false, false) => "l",
    }
}

// The line of outcome, U, L, splits, cases.
fn found_line(found: Found) -> Text
    ensures { (written result ≡ line (found_words found)) × (length (written result) ≤ 91) }
{
    let mut text = Text::new();
    push_word(&mut text, outcome_word(found.outcome), ' ');
    push_number(&mut text, found.upper, ' ');
    push_number(&mut text, found.lower, ' ');
    push_number(&mut text, found.splits, ' ');
    push_number(&mut text, found.cases, '\n');
    text
}

// The line of a pattern, one word for each byte, after a text.
fn pattern_line(before: Text, pattern: &[u8]) -> Text
    requires { (length (written before) ≤ 91) × (1 ≤ length pattern.now) × (length pattern.now ≤ 64) }
    ensures { Printed (written before ++ line (pattern_words (pattern_of (length pattern.now) pattern.now))) result }
{
    let mut text = before;
    for (net, byte) in pattern.iter().enumerate() {
        let end = separator(net, pattern.len());
        push_word(&mut text, excitation_word(*byte), end);
    }
    text
}

// Searches an accepted file, with the list that the first maker makes of it. The buffers serve 256 nets and the budget.
fn search_text(file: &[u8], order: &[u8]) -> Text
    requires { (order.now ≡ cone_order file.now) × (1 ≤ length order.now) × (length order.now ≤ 64) }
    ensures { Printed (search_text file.now) result }
{
    let table = [1u16; 16];
    let mut sheet: [Word; 8192] = [0; 8192];
    let mut pattern = [0u8; 64];
    let mut work = [0u8; 40960];
    let mut store = [0u8; 43272];
    match search::search(
        file,
        HOPS,
        &table,
        RATIO,
        BUDGET,
        order,
        &mut sheet,
        &mut pattern,
        &mut work,
        &mut store,
    ) {
        Err(r) => refusal_text(r),
        Ok(found) => pattern_line(found_line(found), &pattern[..order.len()]),
    }
}

// What the program prints for the bytes that it has read. A byte more than it takes is refusal 2, before any other check. The first maker
// is asked for the list of inputs; what it refuses, Search refuses likewise.
pub fn printed(file: &[u8]) -> Text
    ensures { Printed (program_text file.now) result }
{
    if MOST < file.len() {
        return refusal_text(Refusal {
            reason: Reason::TooManyRecords,
            place: 0,
        });
    }
    match by_cone::cone_order(file) {
        Err(r) => refusal_text(r),
        Ok(made) => {
            let nets = made.nets;
            search_text(file, &nets[..made.inputs])
        }
    }
}
