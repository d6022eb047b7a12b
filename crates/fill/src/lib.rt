// Fills the rows of a gate to the hop limit.
#![tactic(auto)]

ghost use Rattle.std.specs.Prelude.{◌+◌, ◌-◌, ◌≤◌, ◌<◌, ◌≡◌, length};
ghost use Rattle.laws.specs.Settled.{SettledAfter};
ghost use Rattle.excitation.specs.declared.Excitation.{Excitation};
ghost use Rattle.rows.specs.Rows.{HasRow, set_in};
ghost use Rattle.runs.specs.Rows.{runs_in};
ghost use Rattle.runs.specs.Runs.{runs};
ghost use Rattle.fill.specs.Gaps.{gap, shorter};
ghost use Rattle.fill.specs.Filling.{gap_of, shortest_gap, held_in, GapFilled, RowFilled, OneFilled, Filled};

use excitation::{Excitation, H, HL, L, LH};
use parts::Part;

// A gap between two runs: its first tick and how many ticks it has.
#[derive(Clone, Copy)]
struct Between {
    start: usize,
    size: usize,
}

// The shorter of a gap so far and the gap from tick `end` to before tick `next`, the earlier on a tie.
fn shorter(shortest: Between, end: usize, next: usize) -> Between
    requires { end ≤ next }
    ensures { gap_of result ≡ shorter (gap_of shortest) (gap end (next - end)) }
{
    let size = next - end;
    if size < shortest.size {
        return Between { start: end, size };
    }
    shortest
}

// The shortest gap between the runs of a row that has several, the earliest on a tie: the runs are walked from one to the next.
fn shortest_gap(row: &[u64; 4]) -> Between
    requires { 2 ≤ length (runs_in row.now) }
    ensures { gap_of result ≡ shortest_gap (runs_in row.now) }
{
    let first = runs::next_at(row, 0, true);
    let mut end = runs::next_at(row, first, false);
    let mut next = runs::next_at(row, end, true);
    let mut shortest = Between {
        start: end,
        size: next - end,
    };
    // Form kept: it was tried and misses a bar of speed: with a `while let` over the runs, as Options, `fill_excitation` took 3 % more
    // instructions.
    while next < 256 {
        shortest = shorter(shortest, end, next);
        end = runs::next_at(row, next, false);
        next = runs::next_at(row, end, true);
    }
    shortest
}

// Fills the shortest gap between the runs of a row.
fn fill_shortest(row: &mut [u64; 4])
    requires { 2 ≤ length (runs_in row.old) }
    ensures { GapFilled row.old row.new }
{
    let shortest = shortest_gap(row);
    let start = shortest.start;
    runs::set_range(row, start, start + shortest.size);
}

// Fills a row of so many runs: while they exceed the hop limit, the shortest gap.
fn fill_row(row: &mut [u64; 4], count: usize, hops: usize)
    requires { (count ≡ length (runs_in row.old)) × (1 ≤ hops) }
    ensures { RowFilled hops row.old row.new }
{
    for _ in hops..count {
        fill_shortest(row);
    }
}

// Fills an excitation of a net whose sets are the same after tick `last`.
fn fill_excitation(work: &mut [u8], net: usize, e: Excitation, hops: usize, last: usize)
    requires { HasRow work.old net × (1 ≤ hops) × SettledAfter last (set_in work.old net) }
    ensures { OneFilled hops last e net work.old work.new }
{
    let mut row = rows::read_row(work, net, e);
    let count = runs::count_runs(&row, last);
    if count <= hops {
        return;
    }
    fill_row(&mut row, count, hops);
    rows::write_row(work, net, e, &row);
}

// How many ticks of a net there are, up to the one after tick `last`, at which a run of some excitation begins. None of them has more runs.
fn count_starts(work: &[u8], net: usize, last: usize) -> usize
    requires { HasRow work.now net × SettledAfter last (set_in work.now net) }
    ensures { (e : Excitation) → length (runs (held_in e work.now net)) ≤ result }
{
    let mut count: usize = 0;
    let mut before = Part::default();
    for part in 0..runs::words_until(last) {
        let here = rows::read_part(work, net, part);
        let begun = here.zip(before, runs::starts).some();
        count += begun.count_ones() as usize;
        before = here;
    }
    count
}

// Fills the sets of a net, which are the same after tick `last`, to the hop limit. A run takes two ticks with the gap after it, so that
// nothing has to be counted where `last` is small.
pub fn fill(work: &mut [u8], net: usize, hops: usize, last: usize)
    requires { HasRow work.old net × (1 ≤ hops) × (last < 256) × SettledAfter last (set_in work.old net) }
    ensures { Filled hops last net work.old work.new }
{
    if (last + 1) / 2 < hops {
        return;
    }
    if count_starts(work, net, last) <= hops {
        return;
    }
    fill_excitation(work, net, L, hops, last);
    fill_excitation(work, net, H, hops, last);
    fill_excitation(work, net, HL, hops, last);
    fill_excitation(work, net, LH, hops, last);
}
