// Bench netlists: the records of a block from its text.
#![tactic(auto)]

ghost use Rattle.std.specs.Prelude.{◌≡◌, ◌+◌, ◌++◌, ◌≤◌, length, Err, MatchResult};
ghost use Rattle.block.specs.Verdict.{verdict, Accepted};
ghost use Rattle.block.specs.Refusals.{read_checks};
ghost use Rattle.bench.specs.Checks.{size_checks, rows_from, row_in_range};
ghost use Rattle.bench.specs.Bench.{Handed, text_checks, bench_records, Benched};

use block::{Reason, Refusal, check};
use netlist::Name;

mod lookup;
mod making;
mod overflow;
mod tables;
mod walk;

// The records of the lines taken so far: their names and their bytes, how many they are, and whether one of them is a gate's.
#[derive(Drop)]
pub struct Table {
    pub names: [Name; 1024],
    pub records: [u8; 20480],
    pub count: usize,
    pub gates: bool,
    ghost inside: { count ≤ 1024 },
    ghost sized: { length records ≡ 20480 },
}

// How far the lines were taken: what is left of the text, and the number of its first line. No number of a line of it overflows.
#[derive(Clone, Copy)]
pub struct Progress<'a> {
    pub rest: &'a [u8],
    pub number: usize,
    ghost counted: { number + length rest.now ≤ 9223372036854775808 },
}

// What a line after the 1,024th record is judged by: the names held, and the first `lines` lines of the text.
#[derive(Clone, Copy)]
pub struct Earlier<'a> {
    pub names: &'a [Name],
    pub text: &'a [u8],
    pub lines: usize,
}

// Whether a row of the list is one that a gate may have.
fn row_in_range(list: &[u8; 64], row: usize) -> bool
    requires { row ≤ 7 }
    ensures { result ≡ row_in_range list.now row }
{
    let at = 8 * row;
    block::gate_in_range(
        usize::from(list[at]),
        usize::from(list[at + 1]),
        usize::from(list[at + 2]),
        usize::from(list[at + 3]),
    )
}

// Check 9 on the eight rows.
fn check_rows(list: &[u8; 64]) -> Result<(), Refusal>
    ensures { result ≡ verdict (rows_from list.now 0 8) }
{
    for row in 0..8 {
        check(Reason::OutOfRange, row as u64, row_in_range(list, row))?;
    }
    Ok(())
}

// Checks 15 and 9, on the record buffer and the list, which has 64 bytes if they pass.
fn check_given(list: &[u8], records: usize) -> Result<&[u8; 64], Refusal>
    ensures { MatchResult result (λ rows. (rows.now ≡ list.now) × (verdict (size_checks (length list.now) records ++ rows_from list.now 0 8) ≡ Accepted)) (λ refusal. verdict (size_checks (length list.now) records ++ rows_from list.now 0 8) ≡ Err refusal) }
{
    let wrong = Refusal {
        reason: Reason::WrongBuffer,
        place: 2,
    };
    check(Reason::WrongBuffer, 1, 20480 <= records)?;
    let rows = list.as_array().ok_or(wrong)?;
    check_rows(rows)?;
    Ok(rows)
}

// Copies the records that were made into the lent buffer, if Read accepts them.
fn hand_over(made: &[u8], records: &mut [u8]) -> Result<usize, Refusal>
    requires { length made.now ≤ length records.old }
    ensures { Handed (verdict (read_checks made.now)) made.now records.old result records.new }
{
    let counts = block::read(made)?;
    records[..made.len()].copy_from_slice(made);
    Ok(counts.nets)
}

// Takes the lines of a text and makes their records in a table of its own, so that the lent buffer is written only once every check has
// passed.
fn make(text: &[u8], list: &[u8; 64], records: &mut [u8]) -> Result<usize, Refusal>
    requires { 20480 ≤ length records.old }
    ensures { Handed (verdict (text_checks (record { text = text.now; list = list.now; records = records.old }))) (bench_records (record { text = text.now; list = list.now; records = records.old })) records.old result records.new }
{
    let mut table = Table::new();
    walk::take_text(text, list, &mut table)?;
    hand_over(table.made(), records)
}

// Bench: the records of a text, each gate's delay, contact, pulse and peaks from the row of its kind.
pub fn bench(text: &[u8], list: &[u8], records: &mut [u8]) -> Result<usize, Refusal>
    ensures { Benched (record { text = text.now; list = list.now; records = records.old }) result records.new }
{
    let rows = check_given(list, records.len())?;
    make(text, rows, records)
}
