// Fan-out cones counted: which inputs reach each net, as bits of a word, and how many gates each input reaches.
ghost use Rattle.std.specs.Prelude.{◌≡◌, ℕ, ◌^◌, ◌≤◌, ◌<◌, replicate};
ghost use Rattle.block.specs.Accepted.{AcceptedFile};
ghost use Rattle.block.specs.Block.{cone_size};
ghost use Rattle.block.specs.View.{pin_of};
ghost use Rattle.laws.specs.Rewritten.{Rewritten};
ghost use Rattle.split_order.specs.Reach.{gate_word, Reached, reached_gates};

use block::{Gate, Net, view};

// Writes the words of the inputs: each input reaches itself alone of them.
fn write_own(inputs: usize, words: &mut [u64; 1024])
    requires { inputs ≤ 64 }
    ensures { Rewritten (λ input. 2 ^ input) 0 inputs words.old words.new }
{
    for input in 0..inputs {
        words[input] = 1 << input;
    }
}

// The word of a gate, from the words of the nets below it.
fn gate_word(gate: Gate, words: &[u64; 1024]) -> u64
    requires { (gate.used ≤ 4) × ((p : ℕ) → p < gate.used → pin_of gate p < 1024) }
    ensures { result ≡ gate_word gate words.now }
{
    let mut word: u64 = 0;
    // Form kept: `for pin in &gate.pins[..gate.used]` was tried and the proof didn't close.
    for p in 0..gate.used {
        let pin = gate.pins[p];
        word |= words[pin.0];
    }
    word
}

// Writes the word of each net: bit i is set where input i reaches the net.
fn write_words(file: &[u8], nets: usize, inputs: usize, words: &mut [u64; 1024])
    requires { AcceptedFile file.now nets inputs }
    ensures { Reached file.now inputs nets words.new }
{
    write_own(inputs, words);
    for net in inputs..nets {
        let gate = view::gate(file, Net(net));
        words[net] = gate_word(gate, words);
    }
}

// How many gates an input reaches.
fn reached_gates(words: &[u64; 1024], nets: usize, inputs: usize, source: Net) -> u16
    requires { (inputs ≤ nets) × (nets ≤ 1024) × (source.0 < 64) }
    ensures { result ≡ reached_gates words.now nets inputs source.0 }
{
    let mut count: u64 = 0;
    for net in inputs..nets {
        count += (words[net] >> source.0) % 2;
    }
    count as u16
}

// How many gates stand in the fan-out cone of each input, and 0 past the inputs.
pub fn cones(file: &[u8], nets: usize, inputs: usize) -> [u16; 64]
    requires { AcceptedFile file.now nets inputs }
    ensures { Rewritten (cone_size file.now) 0 inputs (replicate 64 0) result }
{
    let mut words = [0u64; 1024];
    let mut cones = [0u16; 64];
    write_words(file, nets, inputs, &mut words);
    for net in 0..inputs {
        cones[net] = reached_gates(&words, nets, inputs, Net(net));
    }
    cones
}
