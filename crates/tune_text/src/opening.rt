// The opening that the first lines ask for.
ghost use Rattle.std.specs.Prelude.{◌≡◌};
ghost use Rattle.rules.specs.Refusals.{number_of};
ghost use Rattle.tune_text.specs.Lines.{refused_line};
ghost use Rattle.tune_text.specs.Reading.{axis_lines, nothing_read, opening_of, opening_turn, axes_read, last_turn};
ghost use Rattle.tune_text.specs.Handed.{turn_of};

use super::lines;
use crate::{Line, Progress, Request, Stage};
use rules::{Method, Opened, Opening, Refusal, Rule, USUAL};

// Before the first line. The closed search is that of an opening with no axis, which is refused.
#[tactic(auto, using(crate::proofs::Laws::Reading::nothings), unfolding(crate::specs::Reading::nothing_read))]
pub(super) fn nothing_read() -> Progress
    ensures { result ≡ nothing_read }
{
    let request = Request::default();
    Progress {
        stage: Stage::Head,
        request,
        search: request.open().search,
    }
}

// How many axis lines follow a line with this n.
fn axis_lines(n: usize) -> usize
    ensures { result ≡ axis_lines n }
{
    if (1..=8).contains(&n) { n } else { 0 }
}

impl Request {
    // Opens the search that the lines ask for.
    fn open(&self) -> Opened
        ensures { result ≡ opening_of self.now }
    {
        engine::open_search(&Opening {
            method: Method::NelderMead,
            n: self.n,
            axes: self.axes,
            rule: Some(Rule::Spread(self.spread)),
            coefficients: USUAL,
            budget: self.budget,
        })
    }
}

impl Progress {
    // A refusal is printed last.
    pub(super) fn refuse(&mut self, refusal: Refusal) -> Line
        ensures { turn_of self.new result ≡ last_turn self.old (refused_line (number_of refusal)) }
    {
        self.stage = Stage::Done;
        lines::refused(refusal)
    }

    // Opens the search that the lines ask for. A refusal is printed.
    fn open(&mut self) -> Line
        ensures { turn_of self.new result ≡ opening_turn self.old.request }
    {
        let opened = self.request.open();
        self.search = opened.search;
        match opened.verdict {
            Ok(()) => {
                self.stage = Stage::Costs;
                Line::new()
            }
            Err(refusal) => self.refuse(refusal),
        }
    }

    // After k axis lines: the next one, or the opening.
    #[tactic(auto, unfolding(crate::specs::Reading::axes_read))]
    pub(super) fn axes_read(&mut self, k: usize) -> Line
        ensures { turn_of self.new result ≡ axes_read k self.old.request self.old.search }
    {
        if k < axis_lines(self.request.n) {
            self.stage = Stage::Axes(k);
            Line::new()
        } else {
            self.open()
        }
    }
}
