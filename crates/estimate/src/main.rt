// The program: reads a block from standard input, and prints what the search of it answers, as the crate `program` has it.
#![tactic(auto)]

ghost use Rattle.std.specs.Prelude.{◌≡◌, length, Some, OnOk};
ghost use Rattle.std.specs.Io.KnownBytes.{Appends};
ghost use Rattle.program.specs.Program.{program_text};
ghost use Rattle.estimate.specs.Reading.{failure_text, Within, IsRead, IsAnswered};

use std::io::{Read, Write};
use std::{fmt, io};

// Why an input has no answer: it could not be read, or the text for it could not be written whole.
#[derive(Clone, Copy, Debug, PartialEq, Eq)]
enum Failure {
    Unread,
    Unwritten,
}

impl fmt::Display for Failure {
    ghost output = { λ failure. Some (failure_text failure) };

    fn fmt<W: fmt::Write>(&self, f: &mut fmt::Formatter<W>) -> fmt::Result {
        match self {
            Failure::Unread => write!(f, "standard input cannot be read; no answer"),
            Failure::Unwritten => write!(f, "the answer cannot be written"),
        }
    }
}

// Reads until the input ends, the room is full or a read fails. A failed read is not the end of the input.
fn read_input<R: Read>(input: &mut R, room: &mut [u8]) -> io::Result<usize>
    ensures within { Within (length room.old) result }
    ensures bytes { IsRead (R.remaining input.old) (R.remaining input.new) room.new result }
    ensures kept { length room.new ≡ length room.old }
{
    let mut done = 0;
    // Form kept: a `for` is no plainer, since nothing is counted: each read gives as many bytes as it likes.
    while done < room.len() {
        let n = input.read(&mut room[done..])?;
        if n == 0 {
            break;
        }
        done += n;
    }
    Ok(done)
}

// Writes what the program prints for a file, in one piece.
fn print<W: Write>(output: &mut W, file: &[u8]) -> io::Result<()>
    ensures { OnOk result (Appends (W.contents output.old) (W.contents output.new) (program_text file.now)) }
{
    output.write_all(program::printed(file).as_bytes())
}

// Reads an input as far as the program needs, and writes what it prints for it.
fn answer<R: Read, W: Write>(input: &mut R, output: &mut W) -> Result<(), Failure>
    ensures { IsAnswered (R.remaining input.old) (W.contents output.old) (W.contents output.new) result }
{
    let mut room = program::room();
    let n = read_input(input, &mut room).map_err(|_| Failure::Unread)?;
    print(output, &room[..n]).map_err(|_| Failure::Unwritten)
}

// Says on standard error what went wrong. Where that fails too, nothing is left to do.
fn main(rt: HostRuntime) {
    if let Err(failure) = answer(&mut rt.stdin(), &mut rt.stdout()) {
        let _ = eprintln!(rt; "estimate: {failure}");
    }
}
