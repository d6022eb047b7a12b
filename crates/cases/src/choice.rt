// The choice of the input to split: the first undecided one in the order of a list.
ghost use Rattle.std.specs.Prelude.{◌≡◌, ◌≤◌, ◌<◌, length};
ghost use Rattle.excitation.specs.UncertaintySet.{sets_in};
ghost use Rattle.operation.specs.SplitOrder.{NetsListed};
ghost use Rattle.cases.specs.Choice.{first_undecided};

use super::sets;
use block::Net;

// The input of a case to split: the first undecided one in the list's order.
pub fn choose(codes: &[u8], inputs: usize, order: &[u8]) -> Net
    requires { (1 ≤ inputs) × (inputs ≤ length codes.now) × NetsListed inputs order.now }
    ensures { (result.0 ≡ first_undecided order.now (sets_in inputs codes.now)) × (result.0 < inputs) }
{
    for k in 0..inputs {
        let net = usize::from(order[k]);
        let undecided = sets::is_undecided(codes[net]);
        if undecided {
            return Net(net);
        }
    }
    Net(0)
}
