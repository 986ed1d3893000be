// What a phase is, apart from its own trial and its own row of the table.
ghost use Rattle.std.specs.Prelude.{◌≡◌};
ghost use Rattle.rules.specs.View.{view, is_ended, gathered_in, is_probe, open_by, is_directed};

use rules::{Phase, View};

// A build, an iteration of either method, a probe round or the end. A new phase is placed here.
fn view(phase: Phase) -> View
    ensures { result ≡ view phase }
{
    match phase {
        Phase::Building(i) => View::Builds(i),
        Phase::Reflecting => View::Iterates(0),
        Phase::Expanding | Phase::Contracting(_) => View::Iterates(1),
        Phase::Shrinking(j) => View::Iterates(j),
        Phase::Basing => View::Builds(0),
        Phase::Mirroring(_) | Phase::Checking(_) => View::Turns,
        Phase::Probing(p) => View::Probes(p),
        Phase::Ended(cause) => View::Over(cause),
    }
}

// Whether the search has ended.
pub(super) fn is_ended(phase: Phase) -> bool
    ensures { result ≡ is_ended phase }
{
    matches!(view(phase), View::Over(_))
}

// How many vertices the unfinished build or iteration has gathered; the reflections of a multidirectional one count as none.
pub(super) fn gathered_in(phase: Phase) -> usize
    ensures { result ≡ gathered_in phase }
{
    match view(phase) {
        View::Builds(k) | View::Iterates(k) => k,
        View::Turns | View::Probes(_) | View::Over(_) => 0,
    }
}

// What a reading told in this phase adds to the probes.
pub(super) fn is_probe(phase: Phase) -> u64
    ensures { result ≡ is_probe phase }
{
    match view(phase) {
        View::Probes(_) => 1,
        _ => 0,
    }
}

// What it adds to the open readings: the very first reading, trial 0 of a build or the base, is not open.
pub(super) fn open_by(phase: Phase) -> u64
    ensures { result ≡ open_by phase }
{
    match view(phase) {
        View::Builds(0) => 0,
        View::Builds(_) | View::Iterates(_) => 1,
        View::Turns | View::Probes(_) | View::Over(_) => 0,
    }
}

// What it adds to the readings in multidirectional iterations.
pub(super) fn is_directed(phase: Phase) -> u64
    ensures { result ≡ is_directed phase }
{
    match view(phase) {
        View::Turns => 1,
        _ => 0,
    }
}
