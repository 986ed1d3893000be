// The text of `tune`, one step at a time: a step reads at most one line of the input and prints at most one line. What all the steps
// print is `transcript` of the input, a definition of specs/ (proofs/Whole.antt).

#![tactic(auto)]

use arrayvec::ArrayVec;
use rules::{Axis, Search};

mod fields;
mod last;
mod lines;
mod opening;
mod reading;
mod steps;

ghost use Rattle.std.specs.Prelude.{◌≡◌};
ghost use Rattle.tune_text.specs.Reading.{is_done};
ghost use Rattle.tune_text.specs.Steps.{first_state, stepping, Fills};

// A line of the output with its newline, or no line: empty, since the lines put together are the output. The longest line has 190 bytes.
pub type Line = ArrayVec<u8, 192>;

// What the next line is: the line of n, budget and spread E; axis line k, from 0; a cost; or none. A value and no closure, since it is kept
// from one step to the next.
#[derive(Clone, Copy)]
pub enum Stage {
    Head,
    Axes(usize),
    Costs,
    Done,
}

// What the opening is asked for, with zero records for axis lines not yet read: n beside eight records, as document 01 has an opening.
#[derive(Clone, Copy, Default)]
pub struct Request {
    pub n: usize,
    pub budget: u64,
    pub spread: u64,
    pub axes: [Axis; 8],
}

// What is read so far. The search is closed before the opening, and stands beside the stage and not in it: what a line does speaks of all
// three in every stage.
#[derive(Clone, Copy)]
pub struct Progress {
    pub stage: Stage,
    pub request: Request,
    pub search: Search,
}

// Where a step begins: the first byte that is not read, and the number of its line, from 1.
#[derive(Clone, Copy)]
pub struct State {
    pub position: usize,
    pub line: u64,
    pub progress: Progress,
}

impl State {
    // The state before the first line.
    #[tactic(auto, unfolding(crate::specs::Steps::first_state))]
    pub fn first() -> State
        ensures { result ≡ first_state }
    {
        State {
            position: 0,
            line: 1,
            progress: opening::nothing_read(),
        }
    }

    // Whether nothing more is read or printed.
    pub fn is_done(&self) -> bool
        ensures { result ≡ is_done self.now.progress.stage }
    {
        matches!(self.progress.stage, Stage::Done)
    }

    // One step, and the line that it prints.
    #[tactic(auto, using(crate::proofs::Laws::Stepping::steps))]
    pub fn step(&mut self, input: &[u8]) -> Line
        ensures state { self.new ≡ (stepping input.now self.old).state }
        ensures line { result.items ≡ (stepping input.now self.old).line }
    {
        if self.is_done() {
            return Line::new();
        }
        if input.len() > 65536 {
            return self.last_step(lines::bad(0));
        }
        if self.progress.is_over() {
            let line = self.progress.last_line();
            return self.last_step(line);
        }
        self.line_step(input)
    }

    // Steps while something is left to do and the buffer has room for the longest line, puts their lines into it, and gives how many
    // bytes of it they are, as a read of the library does. No index is counted: how many steps there are shows as they are made.
    #[tactic(auto, using(crate::proofs::Laws::Filling::runs))]
    pub fn fill(&mut self, input: &[u8], buffer: &mut [u8]) -> usize
        ensures { Fills input.now self.old buffer.new self.new result }
    {
        let mut count = 0;
        while !self.is_done() && buffer.len() - count >= 192 {
            let line = self.step(input);
            let end = count + line.len();
            buffer[count..end].copy_from_slice(&line);
            count = end;
        }
        count
    }
}
