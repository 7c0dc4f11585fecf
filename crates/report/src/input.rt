// Reads standard input.
ghost use Rattle.std.specs.Prelude.{◌≡◌, ◌≤◌, eqb, cond, length, Ok, Some, None, IfOk, IfErr, IsErr};
ghost use Rattle.report.specs.Program.{bytes_read, Decides};

use super::awaited::Awaited;
use super::{DECIDING, DECIDING_BLOCKS};
use blocks::judgement::BLOCK_BYTES;
use std::io::{Read, Result, Stdin};

// How many bytes were read: all of the input, or as many as decide what is printed.
// Kept: an enum. Neither case is a failure, and of the second more is promised.
#[derive(Clone, Copy)]
pub enum Input {
    Ended(usize),
    Decided(usize),
}

impl Input {
    // How many bytes were read.
    #[tactic(auto, unfolding(crate::specs::Program::bytes_read))]
    pub fn count(self) -> usize
        ensures { result ≡ bytes_read self }
    {
        match self {
            Input::Ended(count) | Input::Decided(count) => count,
        }
    }
}

// Reads block by block into a buffer with room for 206 of them, up to the end of the input, or up to and
// with the first block that a depot does not take, which is one of these 206. Whatever follows that block
// changes nothing.
pub(crate) fn read_blocks(stdin: &mut Stdin, buffer: &mut [u8; DECIDING]) -> Result<Input>
    ensures within { IfOk result (λ input. bytes_read input ≤ length buffer.new) }
    ensures decides { IfOk result (λ input. Decides input buffer.new) }
{
    let mut awaited = Awaited::first();
    for number in 0..DECIDING_BLOCKS {
        let start = number * BLOCK_BYTES;
        let end = start + BLOCK_BYTES;
        let size = read(stdin, &mut buffer[start..end])?;
        if size < BLOCK_BYTES {
            return Ok(Input::Ended(start + size));
        }
        let Ok(next) = awaited.after(&buffer[start..end]) else {
            return Ok(Input::Decided(end));
        };
        awaited = next;
    }
    Ok(Input::Decided(DECIDING))
}

// Fills the buffer from its start, until it is full or the input ends: fewer bytes than have room are read
// only at the end. A read that brings less than was asked for is followed by another.
// Kept: a `while`. Each turn goes on by what a read brought, and the library's `read_exact` doesn't say how
// much came before the end.
fn read(stdin: &mut Stdin, buffer: &mut [u8]) -> Result<usize>
    ensures { IfOk result (λ count. count ≤ length buffer.new) }
{
    let mut from = 0;
    while from < buffer.len() {
        let Some(count) = some_bytes(stdin.read(&mut buffer[from..]))? else {
            break;
        };
        from += count;
    }
    Ok(from)
}

// What a read brought: so many bytes, or none at the end of the input. A read that failed stays a failure,
// and is never taken for the end.
fn some_bytes(brought: Result<usize>) -> Result<Option<usize>>
    ensures came { IfOk brought (λ count. result ≡ Ok (cond (eqb count 0) None (Some count))) }
    ensures failed { IfErr brought (λ _. IsErr result) }
{
    let count = brought?;
    Ok(if count == 0 { None } else { Some(count) })
}
