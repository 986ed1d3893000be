// The parts of a step.
ghost use Rattle.std.specs.Prelude.{◌≡◌, drop, eqb, position};
ghost use Rattle.tune_text.specs.Fields.{newline};
ghost use Rattle.tune_text.specs.Steps.{line_after, last_step, line_step};
ghost use Rattle.tune_text.specs.Handed.{step_of};

use super::lines;
use crate::{Line, Stage, State};

// The number of the line after line i.
fn line_after(i: u64) -> u64
    ensures { result ≡ line_after i }
{
    if i <= 65536 { i + 1 } else { i }
}

// Where the first newline stands.
fn newline_in(bytes: &[u8]) -> Option<usize>
    ensures { result ≡ position (λ x. eqb x newline) bytes.now }
{
    bytes.iter().position(|b| *b == b'\n')
}

impl State {
    // The step that prints a last line.
    pub(super) fn last_step(&mut self, line: Line) -> Line
        ensures { step_of self.new result ≡ last_step self.old line.items }
    {
        self.progress.stage = Stage::Done;
        line
    }

    // The step that reads a line, or meets the end of the input.
    #[tactic(auto, using(crate::proofs::Laws::Stepping::line_steps), unfolding(crate::specs::Steps::line_step, crate::specs::Scan::index_of))]
    pub(super) fn line_step(&mut self, input: &[u8]) -> Line
        ensures { step_of self.new result ≡ line_step self.old (drop self.old.position input.now) }
    {
        if self.position >= input.len() {
            let line = self.progress.last_line();
            return self.last_step(line);
        }
        let rest = &input[self.position..];
        let Some(end) = newline_in(rest) else {
            return self.last_step(lines::bad(self.line));
        };
        let line = self.progress.read_line(self.line, &rest[..end]);
        self.position += end + 1;
        self.line = line_after(self.line);
        line
    }
}
