// Pulses drawn into a sheet in the making, whose words are changes from tick to tick, eight words at a time. To add one pulse to the
// currents is to add its changes to the words. The pulses of a run of ticks have neighbouring ages at each tick: from one tick to the next
// the first one's age is new among them, and the age that the last one had is gone. So to add them all is to add the pulse itself to the
// words from the run's first tick on, and to take it away from the tick after the last on.
ghost use Rattle.std.specs.Prelude.{◌≡◌, ◌+◌, ◌*◌, ◌<◌, ◌≤◌, length};
ghost use Rattle.current.specs.Levels.{InRange};
ghost use Rattle.current.specs.Runs.{Shaped, Changed, RunDrawn};

use super::level::Pulse;
use sheet::Word;

// Eight words from place `at` on changed, each by the level of the shapes that belongs to it, from a place on, and the level that follows.
fn change_eight<F: Fn(Word, u16, u16) -> Word>(
    words: &mut [Word],
    at: usize,
    shapes: &[u16; 528],
    place: usize,
    change: &F,
)
    requires { (at + 8 ≤ length words.old) × (place + 8 < 528) × F.IsAlwaysCallable change.now }
    ensures { Changed (F.post change.now) shapes.now place at 8 words.old words.new }
{
    for k in 0..8 {
        words[at + k] = change(words[at + k], shapes[place + k], shapes[place + k + 1]);
    }
}

// The same of as many eights of words.
fn change_words<F: Fn(Word, u16, u16) -> Word>(
    words: &mut [Word],
    at: usize,
    shapes: &[u16; 528],
    place: usize,
    eights: usize,
    change: F,
)
    requires { (at + 8 * eights ≤ length words.old) × (place + 8 * eights < 528) × F.IsAlwaysCallable change }
    ensures { Changed (F.post change) shapes.now place at (8 * eights) words.old words.new }
{
    for n in 0..eights {
        change_eight(words, at + 8 * n, shapes, place + 8 * n, &change);
    }
}

// The pulses that start at ticks `first` to `last`, at a contact. A pulse is 0 at its start, so that its first change is at the tick after.
pub fn draw_run(
    words: &mut [Word],
    contact: usize,
    pulse: Pulse,
    shapes: &[u16; 528],
    place: usize,
    first: usize,
    last: usize,
)
    requires { (length words.old ≡ 8192) × (contact < 16) × InRange pulse.peak pulse.rise pulse.fall × Shaped pulse.peak pulse.rise pulse.fall place shapes.now × (first ≤ last) × (last < 256) }
    ensures { RunDrawn pulse.peak pulse.rise pulse.fall contact first (last + 1) words.old words.new }
{
    let eights = (pulse.rise + pulse.fall + 7) / 8;
    let row = 512 * contact;
    if first == last {
        let add_change = |word: Word, level: u16, next: u16| {
            word.wrapping_add(u64::from(next).wrapping_sub(u64::from(level)))
        };
        change_words(words, row + (last + 1), shapes, place, eights, add_change);
        return;
    }
    let add = |word: Word, level: u16, _next: u16| word.wrapping_add(u64::from(level));
    change_words(words, row + first, shapes, place, eights, add);
    let take = |word: Word, level: u16, _next: u16| word.wrapping_sub(u64::from(level));
    change_words(words, row + (last + 1), shapes, place, eights, take);
}
