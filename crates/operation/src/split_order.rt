// Check 19, of a list of inputs in the order to be split.
ghost use Rattle.std.specs.Prelude.{◌∷◌, [], ◌≡◌, ◌≤◌, length};
ghost use Rattle.block.specs.Verdict.{verdict};
ghost use Rattle.operation.specs.SplitOrder.{times_named, names_each, order_check};

use block::{Net, Reason, Refusal, check};

// How often a list names a net.
fn times_named(order: &[u8], net: Net) -> usize
    ensures { (result ≡ times_named order.now net.0) × (result ≤ length order.now) }
{
    let mut times: usize = 0;
    for k in 0..order.len() {
        if usize::from(order[k]) == net.0 {
            times += 1;
        }
    }
    times
}

// Whether a list is each input's net exactly once.
fn names_each(order: &[u8], inputs: usize) -> bool
    ensures { result ≡ names_each inputs order.now }
{
    if order.len() != inputs {
        return false;
    }
    for net in 0..inputs {
        if times_named(order, Net(net)) != 1 {
            return false;
        }
    }
    true
}

// Check 19.
pub fn check_order(inputs: usize, order: &[u8]) -> Result<(), Refusal>
    ensures { result ≡ verdict (order_check inputs order.now ∷ []) }
{
    check(Reason::WrongOrder, 0, names_each(order, inputs))
}
