// Reads standard input, steps through it, and writes the lines that the steps print.

#![tactic(auto)]

ghost use Rattle.std.specs.Prelude.{◌≡◌, false, ◌<◌};
ghost use Rattle.tune_text.specs.Reading.{is_done};
ghost use Rattle.tune_text.specs.Steps.{steps_left};

use arrayvec::ArrayVec;
use std::io;
use std::io::Read;
use tune_text::State;

// Makes as many steps as a buffer has room for, and writes their lines. `fill` takes a buffer: the text of `tune` has no heap.
fn write_some(rt: &impl Print, input: &[u8], state: &mut State) -> io::Result<()>
    requires { is_done state.old.progress.stage ≡ false }
    ensures { steps_left input.now state.new < steps_left input.now state.old }
{
    let mut buffer = [0u8; 65536];
    let count = state.fill(input, &mut buffer);
    rt.write_all(&buffer[..count])
}

// Makes all steps for this input, or stops at the first write that fails. No index is counted: each turn leaves fewer steps.
fn tune(rt: &impl Print, input: &[u8]) -> io::Result<()> {
    let mut state = State::first();
    while !state.is_done() {
        write_some(rt, input, &mut state)?;
    }
    Ok(())
}

// 65,537 bytes are enough to know that an input is too long. They are read into an array: nothing here asks for memory.
fn main(rt: HostRuntime) -> io::Result<()> {
    let mut input = ArrayVec::<u8, 65537>::new();
    io::copy(&mut rt.stdin().take(65537), &mut input)?;
    if tune(&rt, &input).is_err() {
        let _ = rt.eprintln("tune: standard output takes no more");
    }
    Ok(())
}
