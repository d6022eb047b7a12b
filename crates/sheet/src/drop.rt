// The drop of a sheet: the greatest over nodes and ticks of the sum of resistance × current. At each tick a bound of the drop of every
// node is taken first, and only a tick whose bound is above the greatest drop found so far is worked out node by node.
ghost use Rattle.std.specs.Prelude.{◌≡◌, ◌+◌, ◌*◌, ◌<◌, ◌≤◌, length, replicate};
ghost use Rattle.laws.specs.Rewritten.{Rewritten};
ghost use Rattle.sheet.specs.Sheet.{drop_at, drop_of, sheet_in};
ghost use Rattle.sheet.specs.Sums.{Droppable, most_resistance, bound_at, tick_drop, TickFits, with_contact, SumsFit};

use super::Word;

// The greatest resistance of a contact over the nodes.
#[tactic(auto, unfolding(laws::specs::Below::max_below, crate::specs::Sums::most_resistance))]
fn most_resistance(table: &[u16], contact: usize) -> u64
    requires { contact < 16 }
    ensures { result ≡ most_resistance table.now contact }
{
    let nodes = table.len() / 16;
    let mut most: u64 = 0;
    for node in 0..nodes {
        most = most.max(u64::from(table[16 * node + contact]));
    }
    most
}

// The part of one contact, whose row starts at word `start`, added to the sums of each tick before `stop`.
fn add_contact(sums: &mut [u64], resistance: u64, sheet: &[Word], start: usize, stop: usize)
    requires { SumsFit sums.old resistance sheet.now start stop }
    ensures { Rewritten (with_contact sums.old resistance sheet.now start) 0 stop sums.old sums.new }
{
    for t in 0..stop {
        sums[t] += resistance * sheet[start + t];
    }
}

// The bound of each tick before `stop`, made in a buffer of zeros.
fn bound_ticks(table: &[u16], sheet: &[Word], stop: usize, bounds: &mut [u64])
    requires { Droppable stop sheet.now × (bounds.old ≡ replicate 512 0) }
    ensures { Rewritten (bound_at table.now (sheet_in sheet.now)) 0 stop bounds.old bounds.new }
{
    for contact in 0..16 {
        let resistance = most_resistance(table, contact);
        add_contact(bounds, resistance, sheet, 512 * contact, stop);
    }
}

// A node's drop at tick t.
#[tactic(auto, unfolding(laws::specs::Below::sum_below, crate::specs::Sheet::drop_at))]
fn node_drop(table: &[u16], node: usize, sheet: &[Word], t: usize) -> u64
    requires { (16 * node + 16 ≤ length table.now) × TickFits sheet.now t }
    ensures { result ≡ drop_at table.now (sheet_in sheet.now) node t }
{
    let mut sum: u64 = 0;
    for contact in 0..16 {
        let resistance = u64::from(table[16 * node + contact]);
        sum += resistance * sheet[512 * contact + t];
    }
    sum
}

// The greatest drop of a node at tick t.
#[tactic(auto, unfolding(laws::specs::Below::max_below, crate::specs::Sums::tick_drop))]
fn tick_drop(table: &[u16], sheet: &[Word], t: usize) -> u64
    requires { TickFits sheet.now t }
    ensures { result ≡ tick_drop table.now (sheet_in sheet.now) t }
{
    let nodes = table.len() / 16;
    let mut most: u64 = 0;
    for node in 0..nodes {
        most = most.max(node_drop(table, node, sheet, t));
    }
    most
}

// The drop of a sheet that has no current from tick `stop` on. The tick of the greatest bound goes first, so that few others have a bound
// above the drop found there.
#[tactic(auto, unfolding(laws::specs::Below::max_below), using(crate::proofs::Drops::drop_none))]
pub fn greatest_drop(table: &[u16], sheet: &[Word], stop: usize) -> u64
    requires { Droppable stop sheet.now }
    ensures { result ≡ drop_of table.now (sheet_in sheet.now) }
{
    if stop == 0 {
        return 0;
    }
    let mut bounds = [0u64; 512];
    bound_ticks(table, sheet, stop, &mut bounds);
    let first = numbers::first_greatest(stop, |t| bounds[t]);
    let mut most = tick_drop(table, sheet, first);
    for t in 0..stop {
        if most < bounds[t] {
            most = most.max(tick_drop(table, sheet, t));
        }
    }
    most
}
