// What the program prints: trials, refusals, and where a search stands.
use numerals::bits_of;
use rules::{Asked, Cause, Phase, Refusal, Search, Side};
use std::{fmt, io};

// Coordinates, each printed by its bits after a space. `replay` prints words by itself: `numerals` promises what its functions answer, and what
// is printed has no promise.
#[derive(Clone, Copy)]
struct Coordinates<'a>(&'a [f64]);

impl fmt::Display for Coordinates<'_> {
    fn fmt<W: fmt::Write>(&self, f: &mut fmt::Formatter<W>) -> fmt::Result {
        for x in self.0 {
            write!(f, " {:016x}", bits_of(*x))?;
        }
        Ok(())
    }
}

// Writes a trial with its number and the cost that is told for it.
pub(super) fn trial(rt: &impl Print, n: usize, asked: &Asked, cost: u64) -> io::Result<()> {
    let point = Coordinates(&asked.trial.point[..n.min(8)]);
    println!(rt; "{}{point} {cost}", asked.number)
}

// What the next reading is for.
fn phase_name(phase: Phase) -> &'static str {
    match phase {
        Phase::Building(_) => "building",
        Phase::Reflecting => "reflecting",
        Phase::Expanding => "expanding",
        Phase::Contracting(Side::Outside) => "outside",
        Phase::Contracting(Side::Inside) => "inside",
        Phase::Shrinking(_) => "shrinking",
        Phase::Basing => "basing",
        Phase::Mirroring(_) => "mirroring",
        Phase::Checking(_) => "checking",
        Phase::Probing(_) => "probing",
        Phase::Ended(Cause::Settled) => "settled",
        Phase::Ended(Cause::Budget) => "budget",
    }
}

// Writes where a search stands: its phase, its best reading with its number (zeros where nothing is read), its counts (builds, reflections,
// expansions, contractions, shrinks, probes, open readings; multidirectional iterations and the readings in them).
pub(super) fn state(rt: &impl Print, s: &Search) -> io::Result<()> {
    let best = engine::best(s).unwrap_or_default();
    let point = Coordinates(&best.point[..s.setup.n.min(8)]);
    println!(rt;
        "{}, best{point} {} {}",
        phase_name(s.phase),
        best.cost,
        best.number
    )?;
    let c = s.counts;
    println!(rt;
        "counts {} {} {} {} {} {} {} {} {}",
        c.builds,
        c.reflections,
        c.expansions,
        c.contractions,
        c.shrinks,
        c.probes,
        c.unfinished,
        c.patterns,
        c.directed,
    )
}

// Writes whether a call is accepted, whatever it answers, or its refusal.
pub(super) fn verdict<T: Drop>(rt: &impl Print, v: Result<T, Refusal>) -> io::Result<()> {
    match v {
        Ok(_) => println!(rt; "accepted"),
        Err(refusal) => refused(rt, refusal),
    }
}

// Writes a refusal by its number, with its axis where it has one.
pub(super) fn refused(rt: &impl Print, refusal: Refusal) -> io::Result<()> {
    let number = engine::refusal_number(refusal);
    match engine::refusal_axis(refusal) {
        Some(axis) => println!(rt; "refused {number} on axis {axis}"),
        None => println!(rt; "refused {number}"),
    }
}
