// What a line of the input does.
ghost use Rattle.std.specs.Prelude.{◌≡◌, ℕ};
ghost use Rattle.tune_text.specs.Reading.{axis_from, cost_told, line_read};
ghost use Rattle.tune_text.specs.declared.Stage.TheVariants.{Head, Axes, Costs};
ghost use Rattle.tune_text.specs.Handed.{turn_of, turn_or_bad, turn_or_refused};

use super::{fields, lines};
use crate::{Line, Progress, Request, Stage};
use numerals::float_of;
use rules::{Asked, Axis, Refusal, Vertex};

// An axis record by its bits, and no ring.
fn axis_from(values: [u64; 4]) -> Axis
    ensures { result ≡ axis_from values }
{
    let [lo, hi, start, step] = values.map(float_of);
    Axis {
        lo,
        hi,
        start,
        step,
        ring: false,
    }
}

impl Progress {
    // The first line; none where it is malformed.
    #[tactic(auto, unfolding(crate::specs::Reading::line_read, crate::specs::Handed::numbers_read))]
    fn head_line(&mut self, line: &[u8]) -> Option<Line>
        ensures { (i : ℕ) → turn_or_bad i self.new result ≡ line_read Head self.old i line.now }
    {
        let [n, budget, spread] = fields::whole_numbers::<3>(line)?;
        self.request = Request {
            n: n as usize,
            budget,
            spread,
            ..Request::default()
        };
        Some(self.axes_read(0))
    }

    // Axis line k, from 0; none where it is malformed.
    #[tactic(auto, using(crate::proofs::Laws::Reading::past_eight), unfolding(crate::specs::Reading::line_read, crate::specs::Handed::numbers_read))]
    fn axis_line(&mut self, k: usize, line: &[u8]) -> Option<Line>
        ensures { (i : ℕ) → turn_or_bad i self.new result ≡ line_read (Axes k) self.old i line.now }
    {
        let values = fields::four_floats(line)?;
        if k < 8 {
            self.request.axes[k] = axis_from(values);
            Some(self.axes_read(k + 1))
        } else {
            Some(self.axes_read(k))
        }
    }

    // Asks for the trial and tells this cost for it, or refuses.
    #[tactic(auto, using(crate::proofs::Laws::Reading::told_unchanged), unfolding(crate::specs::Reading::cost_told))]
    fn tell(&mut self, cost: u64) -> Result<Line, Refusal>
        requires { self.old.stage ≡ Costs }
        ensures { turn_or_refused self.new result ≡ cost_told self.old cost }
    {
        let n = self.search.setup.n;
        let Asked { number, trial } = engine::ask(&self.search)?;
        let point = trial.point;
        engine::tell(&mut self.search, number, cost)?;
        Ok(lines::reading(
            n,
            &Vertex {
                point,
                cost,
                number,
            },
        ))
    }

    // A cost line; none where it is malformed.
    #[tactic(auto, unfolding(crate::specs::Reading::line_read, crate::specs::Handed::numbers_read))]
    fn cost_line(&mut self, line: &[u8]) -> Option<Line>
        requires { self.old.stage ≡ Costs }
        ensures { (i : ℕ) → turn_or_bad i self.new result ≡ line_read Costs self.old i line.now }
    {
        let [cost] = fields::whole_numbers::<1>(line)?;
        match self.tell(cost) {
            Ok(line) => Some(line),
            Err(refusal) => Some(self.refuse(refusal)),
        }
    }

    // What a line of the input does, by the stage; none where it is malformed.
    #[tactic(auto, unfolding(crate::specs::Reading::line_read))]
    fn well_formed(&mut self, line: &[u8]) -> Option<Line>
        ensures { (i : ℕ) → turn_or_bad i self.new result ≡ line_read self.old.stage self.old i line.now }
    {
        match self.stage {
            Stage::Head => self.head_line(line),
            Stage::Axes(k) => self.axis_line(k, line),
            Stage::Costs => self.cost_line(line),
            Stage::Done => Some(Line::new()),
        }
    }

    // Line i of the input.
    pub(super) fn read_line(&mut self, i: u64, line: &[u8]) -> Line
        ensures { turn_of self.new result ≡ line_read self.old.stage self.old i line.now }
    {
        match self.well_formed(line) {
            Some(line) => line,
            None => {
                self.stage = Stage::Done;
                lines::bad(i)
            }
        }
    }
}
