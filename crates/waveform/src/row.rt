// What stands beside a net's sets in the work buffer: byte 128 of its 160 has its set before tick 0, byte 129 its arrival, byte 130 the
// tick after which its sets are the same.
ghost use Rattle.std.specs.Prelude.{◌≡◌, ◌*◌, ◌<◌};
ghost use Rattle.rows.specs.Rows.{HasRow};
ghost use Rattle.waveform.specs.Rows.{row_byte, arrival_in, last_in, EndsWritten};

use block::Net;
use excitation::Set;

// Where the bytes of a net start.
fn start(net: Net) -> usize
    requires { net.0 < 1024 }
    ensures { result ≡ 160 * net.0 }
{
    160 * net.0
}

// A net's set before tick 0.
pub fn set_before(work: &[u8], net: Net) -> Set
    requires { HasRow work.now net.0 }
    ensures { result.code ≡ row_byte work.now net.0 128 }
{
    let at = start(net);
    Set {
        code: work[at + 128],
    }
}

// The arrival of a net.
pub fn arrival(work: &[u8], net: Net) -> usize
    requires { HasRow work.now net.0 }
    ensures { (result ≡ arrival_in work.now net.0) × (result < 256) }
{
    let at = start(net);
    usize::from(work[at + 129])
}

// The tick after which the sets of a net are the same.
pub fn last(work: &[u8], net: Net) -> usize
    requires { HasRow work.now net.0 }
    ensures { (result ≡ last_in work.now net.0) × (result < 256) }
{
    let at = start(net);
    usize::from(work[at + 130])
}

// Writes what stands beside a net's sets.
pub fn write_ends(work: &mut [u8], net: Net, before: Set, arrival: u8, last: u8)
    requires { HasRow work.old net.0 }
    ensures { EndsWritten net.0 before.code arrival last work.old work.new }
{
    let at = start(net);
    work[at + 128] = before.code;
    work[at + 129] = arrival;
    work[at + 130] = last;
}
