// The functions that C and Rust call. Each answer goes into a lent array of eight numbers.
#![tactic(auto)]

ghost use Rattle.std.specs.Prelude.{ℕ, List, ◌∷◌, ◌≡◌};
ghost use Rattle.block.specs.Refusals.{read_of};
ghost use Rattle.operation.specs.Numbers.{eight, answer_numbers, counts_values, currents_values, order_values, found_values, read_numbers, outcome_number};
ghost use Rattle.operation.specs.SplitOrder.{list_after};
ghost use Rattle.zimgurav.specs.Calls.{version, bench_values, BenchCalled, EnvelopeCalled, SimulateCalled, ConeOrderCalled, BoundOrderCalled, SearchCalled};

use block::{Counts, Refusal};
use operation::{Currents, Found, Outcome, SplitOrder};
use sheet::Word;
use split_order::{by_bounds, by_cone};

// What an accepted call finds, as numbers.
trait Numbered: Copy {
    // Its values, in the order in which they are answered.
    ghost values: { Self → List ℕ };

    // Eight numbers: 0 and the values, 0 past them.
    fn numbers(self) -> [u64; 8]
        ensures { result ≡ eight (0 ∷ values self) };
}

// Read: the counts of nets and inputs.
impl Numbered for Counts {
    ghost values = { counts_values };

    fn numbers(self) -> [u64; 8] {
        [0, self.nets as u64, self.inputs as u64, 0, 0, 0, 0, 0]
    }
}

// Bench: how many records there are.
impl Numbered for usize {
    ghost values = { bench_values };

    fn numbers(self) -> [u64; 8] {
        [0, self as u64, 0, 0, 0, 0, 0, 0]
    }
}

// Envelope and Simulate: the drop and the quiet tick.
impl Numbered for Currents {
    ghost values = { currents_values };

    fn numbers(self) -> [u64; 8] {
        [0, self.drop, self.quiet, 0, 0, 0, 0, 0]
    }
}

// A maker of a list of inputs: how many inputs it names.
impl Numbered for SplitOrder {
    ghost values = { order_values };

    fn numbers(self) -> [u64; 8] {
        [0, self.inputs as u64, 0, 0, 0, 0, 0, 0]
    }
}

// The number of an outcome: 0 exact, 1 within, 2 spent.
fn outcome_number(outcome: Outcome) -> u64
    ensures { result ≡ outcome_number outcome }
{
    match outcome {
        Outcome::Exact => 0,
        Outcome::Within => 1,
        Outcome::Spent => 2,
    }
}

// Search: outcome, U, L, splits, cases and the quiet tick.
impl Numbered for Found {
    ghost values = { found_values };

    fn numbers(self) -> [u64; 8] {
        [
            0,
            outcome_number(self.outcome),
            self.upper,
            self.lower,
            self.splits,
            self.cases,
            self.quiet,
            0,
        ]
    }
}

// An answer as eight numbers: what the call found, or the number and the place of its refusal.
fn answer_numbers<T: Numbered>(answer: Result<T, Refusal>) -> [u64; 8]
    ensures { result ≡ answer_numbers T.values answer }
{
    match answer {
        Ok(found) => found.numbers(),
        Err(r) => [r.reason.number(), r.place, 0, 0, 0, 0, 0, 0],
    }
}

// The lent list after a maker's call: the maker's list, or as it was where the call was refused.
fn list_after(made: Result<SplitOrder, Refusal>, given: [u8; 64]) -> [u8; 64]
    ensures { result ≡ list_after made given }
{
    match made {
        Ok(list) => list.nets,
        Err(_) => given,
    }
}

// The version of these calls. It goes up with every change of what a call takes, answers or writes, so that two builds of one version
// give the same answers, sheets, patterns and stores.
#[unsafe(no_mangle)]
pub extern "C" fn zimgurav_version() -> u64
    ensures { result ≡ version }
{
    6
}

// Read: the file's counts of nets and inputs, or its refusal.
#[unsafe(no_mangle)]
pub extern "C" fn zimgurav_read(file: &[u8], answer: &mut [u64; 8])
    ensures { answer.new ≡ read_numbers (read_of file.now) }
{
    *answer = answer_numbers(block::read(file));
}

// Bench: the records of a bench text, which go into the record buffer, and their count, or the refusal.
#[unsafe(no_mangle)]
pub extern "C" fn zimgurav_bench(
    text: &[u8],
    list: &[u8],
    records: &mut [u8],
    answer: &mut [u64; 8],
)
    ensures { BenchCalled (record { text = text.now; list = list.now; records = records.old }) records.new answer.new }
{
    *answer = answer_numbers(bench::bench(text, list, records));
}

// Envelope: the drop and the quiet tick of the frame's envelope, which goes into the sheet, or the refusal.
#[unsafe(no_mangle)]
pub extern "C" fn zimgurav_envelope(
    file: &[u8],
    hops: u64,
    table: &[u16],
    sheet: &mut [Word],
    work: &mut [u8],
    answer: &mut [u64; 8],
)
    ensures { EnvelopeCalled (record { file = file.now; hops = hops; table = table.now; sheet = sheet.old; work = work.old }) sheet.new work.new answer.new }
{
    *answer = answer_numbers(envelope::envelope(file, hops, table, sheet, work));
}

// Simulate: the drop and the quiet tick of a pattern's currents, which go into the sheet, or the refusal.
#[unsafe(no_mangle)]
pub extern "C" fn zimgurav_simulate(
    file: &[u8],
    table: &[u16],
    sheet: &mut [Word],
    pattern: &[u8],
    work: &mut [u8],
    answer: &mut [u64; 8],
)
    ensures { SimulateCalled (record { file = file.now; table = table.now; sheet = sheet.old; pattern = pattern.now; work = work.old }) sheet.new work.new answer.new }
{
    *answer = answer_numbers(simulator::simulate(file, table, sheet, pattern, work));
}

// The first maker of a list of inputs in the order to be split, by cone: how many inputs it names, or the refusal.
#[unsafe(no_mangle)]
pub extern "C" fn zimgurav_cone_order(file: &[u8], order: &mut [u8; 64], answer: &mut [u64; 8])
    ensures { ConeOrderCalled file.now order.old order.new answer.new }
{
    let made = by_cone::cone_order(file);
    *order = list_after(made, *order);
    *answer = answer_numbers(made);
}

// The second maker, by the bounds of each input's children: how many inputs its list names, or the refusal.
#[unsafe(no_mangle)]
pub extern "C" fn zimgurav_bound_order(
    file: &[u8],
    hops: u64,
    table: &[u16],
    work: &mut [u8],
    order: &mut [u8; 64],
    answer: &mut [u64; 8],
)
    ensures { BoundOrderCalled (record { file = file.now; hops = hops; table = table.now; work = work.old }) order.old work.new order.new answer.new }
{
    let made = by_bounds::bound_order(file, hops, table, work);
    *order = list_after(made, *order);
    *answer = answer_numbers(made);
}

// Search: the outcome, U, L, splits and cases of the best-first search and the quiet tick of its final sheet, with its sheet, pattern and
// cases in their buffers, or the refusal. Cases are split in the order of a list of inputs.
#[unsafe(no_mangle)]
pub extern "C" fn zimgurav_search(
    file: &[u8],
    hops: u64,
    table: &[u16],
    ratio: u64,
    budget: u64,
    order: &[u8],
    sheet: &mut [Word],
    pattern: &mut [u8],
    work: &mut [u8],
    store: &mut [u8],
    answer: &mut [u64; 8],
)
    ensures { SearchCalled (record { file = file.now; hops = hops; table = table.now; ratio = ratio; budget = budget; order = order.now; sheet = sheet.old; pattern = pattern.old; work = work.old; store = store.old }) sheet.new pattern.new work.new store.new answer.new }
{
    *answer = answer_numbers(search::search(
        file, hops, table, ratio, budget, order, sheet, pattern, work, store,
    ));
}
