// P1 to P12 of document 01 and further cases, run through the engine's calls and printed: trials by their bits, then where each search
// stands. What is printed is held to the file stdout. `listed` carries demand 3 to the engine.

#![tactic(auto)]

use std::io;

mod cases;
mod list;
mod openings;
mod paper;
mod play;
mod refusals;
mod show;

// Prints all cases.
fn main(rt: HostRuntime) -> io::Result<()> {
    paper::all(&rt)?;
    cases::all(&rt)?;
    list::all(&rt)?;
    refusals::all(&rt)
}
