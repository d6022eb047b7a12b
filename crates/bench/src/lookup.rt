// Names looked up among those of the records so far.
ghost use Rattle.std.specs.Prelude.{◌≡◌, ◌≤◌, length};
ghost use Rattle.std.specs.List.{position};
ghost use Rattle.netlist.specs.Kept.{names_in, same_name};
ghost use Rattle.bench.specs.Held.{PinsPlaced};

use netlist::{Name, Names};

// The number of the record that has a name, if any.
pub fn position(names: &[Name], name: Name) -> Option<usize>
    ensures { result ≡ position (λ held. same_name held name) names.now }
{
    names.iter().position(|held| *held == name)
}

// The nets of a gate's pins, 0 for an unused one; none where a pin is unknown.
pub fn pin_nets(names: &[Name], pins: &Names) -> Option<[u16; 4]>
    requires { length names.now ≤ 1024 }
    ensures { PinsPlaced names.now (names_in pins.now) result }
{
    let mut nets = [0u16; 4];
    for (p, pin) in pins.as_slice().iter().enumerate() {
        let net = position(names, *pin)?;
        nets[p] = net as u16;
    }
    Some(nets)
}
