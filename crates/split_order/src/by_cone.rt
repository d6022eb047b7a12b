// The list by cone: every input, decided or not, most gates in its fan-out cone first, lowest net on a tie.
ghost use Rattle.std.specs.Prelude.{◌≡◌, ℕ, ◌≤◌, ◌<◌, length, get_or};
ghost use Rattle.block.specs.Accepted.{AcceptedFile};
ghost use Rattle.operation.specs.SplitOrder.{list_bytes};
ghost use Rattle.cases.specs.SplitOrder.{wider, cone_order};
ghost use Rattle.split_order.specs.Sorting.{SortsBy};
ghost use Rattle.split_order.specs.SplitOrder.{cone_order_made};

use super::key::Four;
use super::{reach, sort};
use block::{Counts, Refusal};
use operation::SplitOrder;

// The numbers of the inputs: 1,024 less the gates in the cone, and 0 three times.
fn cone_keys(cones: &[u16; 64], inputs: usize) -> [Four; 64]
    requires { (inputs ≤ 64) × ((net : ℕ) → net < inputs → get_or cones.now net 0 ≤ 1024) }
    ensures { SortsBy (wider (λ net. get_or cones.now net 0)) inputs result }
{
    let mut keys = [Four::alone(0); 64];
    for net in 0..inputs {
        let narrow = 1024 - u64::from(cones[net]);
        keys[net] = Four::alone(narrow);
    }
    keys
}

// The list of an accepted file.
fn list_by_cone(file: &[u8], nets: usize, inputs: usize) -> [u8; 64]
    requires { AcceptedFile file.now nets inputs }
    ensures { result ≡ list_bytes (cone_order file.now) }
{
    let cones = reach::cones(file, nets, inputs);
    sort::sorted(&cone_keys(&cones, inputs), inputs)
}

// The first maker: the checks of the file, then the list by cone.
pub fn cone_order(file: &[u8]) -> Result<SplitOrder, Refusal>
    ensures { result ≡ cone_order_made file.now }
{
    let Counts { nets, inputs } = block::read(file)?;
    Ok(SplitOrder {
        inputs,
        nets: list_by_cone(file, nets, inputs),
    })
}
