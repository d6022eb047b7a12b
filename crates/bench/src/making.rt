// Records made from lines.
ghost use Rattle.std.specs.Prelude.{◌≡◌, ◌/◌, ◌%◌, ◌≤◌, ◌∷◌, [], length, get_or};
ghost use Rattle.netlist.specs.Kept.{names_in};
ghost use Rattle.bench.specs.Records.{input_record, gate_record};

use netlist::GateLine;

// The record of an input, which allows all four excitations.
pub fn input_record() -> [u8; 20]
    ensures { result ≡ input_record }
{
    [1, 0, 0, 0, 0, 0, 0, 0, 0, 0, 0, 0, 0, 0, 0, 0, 0, 0, 15, 0]
}

// The two bytes of a net's number, the low one first.
fn bytes_of(net: u16) -> [u8; 2]
    ensures { result ≡ net % 256 ∷ net / 256 ∷ [] }
{
    net.to_le_bytes()
}

// The record of a gate, with the row of its kind.
pub fn gate_record(list: &[u8; 64], gate: &GateLine, nets: [u16; 4]) -> [u8; 20]
    requires { (2 ≤ gate.now.kind) × (gate.now.kind ≤ 9) }
    ensures { result ≡ gate_record list.now gate.now.kind (length (names_in gate.now.pins)) (λ p. get_or nets p 0) }
{
    let row = 8 * (gate.kind - 2);
    let first = bytes_of(nets[0]);
    let second = bytes_of(nets[1]);
    let third = bytes_of(nets[2]);
    let fourth = bytes_of(nets[3]);
    [
        gate.kind as u8,
        list[row],
        list[row + 1],
        gate.pins.len() as u8,
        first[0],
        first[1],
        second[0],
        second[1],
        third[0],
        third[1],
        fourth[0],
        fourth[1],
        list[row + 2],
        list[row + 3],
        list[row + 4],
        list[row + 5],
        list[row + 6],
        list[row + 7],
        0,
        0,
    ]
}
