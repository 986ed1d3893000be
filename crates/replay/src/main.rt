// Reads a script of calls on standard input, makes them one after the other, and prints every answer (docs/REPLAY.md).

#![tactic(auto)]

use arrayvec::ArrayVec;
use print::{Line, Malformed};
use std::io;
use std::io::Read;

mod calls;
mod parts;
mod print;
mod script;
mod series;

// The most bytes that a script has.
const LONGEST: usize = 262144;

// As many are read: one byte more than the most tells that a script is too long.
const ENOUGH: usize = LONGEST + 1;

// Makes the calls of a script, up to its first malformed line or the first answer that cannot be written. What this takes of the stack, and what
// `read` does, is not taken at once: neither is inlined.
#[inline(never)]
fn replay(rt: &impl Print, script: &[u8], out: &mut Line) -> io::Result<()> {
    let mut search = calls::closed();
    for (line, number) in script.split_inclusive(|byte| *byte == b'\n').zip(1u64..) {
        let Some(command) = script::command_of(line) else {
            return print::line(rt, out, &Malformed(number));
        };
        let answer = calls::make(&mut search, command);
        print::line(rt, out, &answer)?;
    }
    Ok(())
}

// Reads the script, or as much of it as is enough.
#[inline(never)]
fn read(rt: &HostRuntime, script: &mut ArrayVec<u8, ENOUGH>) -> io::Result<()> {
    io::copy(&mut rt.stdin().take(ENOUGH as u64), script)?;
    Ok(())
}

// The script is read into an array: nothing here asks for memory.
fn main(rt: HostRuntime) -> io::Result<()> {
    let mut script = ArrayVec::new();
    read(&rt, &mut script)?;
    let mut out = Line::new();
    if script.len() > LONGEST {
        print::line(&rt, &mut out, &Malformed(0))
    } else {
        replay(&rt, &script, &mut out)
    }
}
