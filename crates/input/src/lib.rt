// The text on standard input or in a file, for the programs.
#![tactic(auto)]

ghost use Rattle.std.specs.Prelude.{◌≡◌, ◌+◌, ◌<◌, ◌≤◌, false, length, take};
ghost use Rattle.std.specs.Io.KnownBytes.{Consumes, IsAtEnd};
ghost use Rattle.std.specs.List.{between};
ghost use Rattle.input.specs.Counts.{IsPrefixLen};
ghost use Rattle.input.specs.Filled.{Filled};

use std::io;
use std::io::Read;

// What was read: so many bytes at the front of a slice, and whether a read failed.
// (No `Result`: the bytes count after a failure too.)
#[derive(Clone, Copy)]
pub struct Input {
    pub bytes: usize,
    pub failed: bool,
}

// One read into `room`, of which what was read is copied to buf behind its first `done` bytes. (Of what a read leaves in
// the bytes that it is lent, behind those that it moved, no contract says anything.) A read that a signal interrupts
// counts as one that failed.
#[tactic(auto, using(crate::proofs::Fills::filled_part))]
fn read_through<R: Read>(reader: &mut R, room: &mut [u8], buf: &mut [u8], done: usize) -> Input
    requires { done + length room.old ≤ length buf.old }
    ensures filled { Filled buf.old buf.new done result.bytes }
    ensures read { Consumes (R.remaining reader.old) (R.remaining reader.new) (between done result.bytes buf.new) }
    ensures end { result.failed ≡ false → result.bytes ≡ done → 0 < length room.old → IsAtEnd (R.remaining reader.new) }
{
    match reader.read(room) {
        Ok(n) => {
            buf[done..done + n].copy_from_slice(&room[..n]);
            Input {
                bytes: done + n,
                failed: false,
            }
        }
        Err(_) => Input {
            bytes: done,
            failed: true,
        },
    }
}

// One read, to buf behind its first `done` bytes.
fn read_more<R: Read>(reader: &mut R, buf: &mut [u8], done: usize) -> Input
    requires { done ≤ length buf.old }
    ensures filled { Filled buf.old buf.new done result.bytes }
    ensures read { Consumes (R.remaining reader.old) (R.remaining reader.new) (between done result.bytes buf.new) }
    ensures end { result.failed ≡ false → result.bytes ≡ done → done < length buf.old → IsAtEnd (R.remaining reader.new) }
{
    let mut room = [0u8; 4096];
    let most = room.len().min(buf.len() - done);
    read_through(reader, &mut room[..most], buf, done)
}

// Reads until buf is full, the input ends or a read fails. The result is how many bytes were read, which stand at the
// front of buf, and whether a read failed. All behind them is as it was.
// They are the bytes that the reader gave, one behind the other. Where no read failed and buf is not full, it has ended.
#[tactic(auto, using(crate::proofs::Fills::filled_on, crate::proofs::Fills::consumed_on))]
pub fn read_from<R: Read>(reader: &mut R, buf: &mut [u8]) -> Input
    ensures filled { Filled buf.old buf.new 0 result.bytes }
    ensures counts { IsPrefixLen result.bytes buf.new }
    ensures read { Consumes (R.remaining reader.old) (R.remaining reader.new) (take result.bytes buf.new) }
    ensures end { result.failed ≡ false → result.bytes < length buf.new → IsAtEnd (R.remaining reader.new) }
{
    let mut done = 0;
    // by as many bytes as a read gives
    while done < buf.len() {
        let input = read_more(reader, buf, done);
        if input.bytes == done {
            return input;
        }
        done = input.bytes;
    }
    Input {
        bytes: done,
        failed: false,
    }
}

// The same from standard input. Which bytes that gives no contract can say.
pub fn read_input(rt: &impl io::Input, buf: &mut [u8]) -> Input
    ensures filled { Filled buf.old buf.new 0 result.bytes }
    ensures counts { IsPrefixLen result.bytes buf.new }
{
    read_from(&mut rt.reader(), buf)
}
