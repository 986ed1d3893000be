// The end of the output.
ghost use Rattle.std.specs.Prelude.{◌≡◌};
ghost use Rattle.tune_text.specs.Reading.{ending_of, is_over, last_line, search_end};

use super::lines;
use crate::{Line, Progress, Stage};
use rules::{Cause, Phase, Search};

// The cause; none where the search has not ended.
fn cause(search: &Search) -> Option<Cause>
    ensures { result ≡ ending_of search.now.phase }
{
    match search.phase {
        Phase::Ended(cause) => Some(cause),
        _ => None,
    }
}

// The last line of a search.
#[tactic(auto, using(crate::proofs::Laws::Ending::last_lines))]
fn search_end(search: &Search) -> Line
    ensures { result.items ≡ search_end search.now }
{
    let cause = cause(search);
    if search.readings == 0 {
        return lines::end(cause);
    }
    match engine::best(search) {
        Ok(best) => lines::best(cause, search.setup.n, &best),
        Err(refusal) => lines::refused(refusal),
    }
}

impl Progress {
    // Whether the search has ended, so that no cost is read.
    pub(super) fn is_over(&self) -> bool
        ensures { result ≡ is_over self.now.stage self.now.search }
    {
        match self.stage {
            Stage::Costs => matches!(self.search.phase, Phase::Ended(_)),
            _ => false,
        }
    }

    // The last line, by the stage.
    #[tactic(auto, unfolding(crate::specs::Reading::last_line))]
    pub(super) fn last_line(&self) -> Line
        ensures { result.items ≡ last_line self.now.stage self.now.search }
    {
        match self.stage {
            Stage::Head | Stage::Axes(_) => lines::end(None),
            Stage::Costs => search_end(&self.search),
            Stage::Done => Line::new(),
        }
    }
}
