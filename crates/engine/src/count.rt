// The counts after a reading: those of its phase, then that of the piece that it finishes.
ghost use Rattle.std.specs.Prelude.{◌≡◌, true, ◌+◌};
ghost use Rattle.rules.specs.Numbers.{max_budget};
ghost use Rattle.rules.specs.Count.{told_in, counted, finished};
ghost use Rattle.rules.specs.Calls.{sound_counts};

use super::view::{is_directed, is_probe, open_by};
use rules::{Counts, Phase, Piece};

// One reading told in this phase more.
#[tactic(auto, using(std::proofs::lemmas::Bool::Decides::nat_tests))]
fn told_in(phase: Phase, counts: &mut Counts)
    requires { sound_counts max_budget counts.old ≡ true }
    ensures { counts.new ≡ told_in phase counts.old }
{
    counts.probes += is_probe(phase);
    counts.unfinished += open_by(phase);
    counts.directed += is_directed(phase);
}

// A finished piece more, and nothing open.
#[tactic(auto, using(std::proofs::lemmas::Bool::Decides::nat_tests))]
fn counted(piece: Piece, counts: &mut Counts)
    requires { sound_counts (max_budget + 1) counts.old ≡ true }
    ensures { counts.new ≡ counted piece counts.old }
{
    counts.unfinished = 0;
    match piece {
        Piece::Build => counts.builds += 1,
        Piece::Reflection => counts.reflections += 1,
        Piece::Expansion => counts.expansions += 1,
        Piece::Contraction => counts.contractions += 1,
        Piece::Shrink => counts.shrinks += 1,
        Piece::Pattern => counts.patterns += 1,
    }
}

// The reading, and the piece that it finishes.
#[tactic(auto, using(std::proofs::lemmas::Bool::Decides::nat_tests))]
pub(super) fn count(counts: &mut Counts, phase: Phase, piece: Option<Piece>)
    requires { sound_counts max_budget counts.old ≡ true }
    ensures { counts.new ≡ finished piece (told_in phase counts.old) }
{
    told_in(phase, counts);
    if let Some(p) = piece {
        counted(p, counts);
    }
}
