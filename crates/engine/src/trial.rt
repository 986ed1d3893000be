// The trial of each phase: one loop over the axes for each of them, so that no axis asks for the phase again, and the centroid once for all axes.
// Each coordinate is brought into its axis, and counted where the clamp changes it. The loops write the trial in place, since one given back by each
// would be copied.
ghost use Rattle.std.specs.Prelude.{◌≡◌, cond, ◌+◌, ◌≤◌, ◌<◌, set, get_or};
ghost use Rattle.std.specs.Float.{nan};
ghost use Rattle.rules.specs.Trial.{axis, build_step, brought_in, at_stop, centroid, toward_reflected, toward_worst, mirrored, target, made, trial_in};
ghost use Rattle.rules.specs.declared.Phase.TheVariants.{Building, Reflecting, Shrinking, Mirroring, Checking, Probing};
ghost use Rattle.engine.specs.Places.{no_trial};
ghost use Rattle.engine.specs.Ready.{Askable};

use super::centroid::centroid;
use super::float::{at_stop, brought_in, moved_from};
use super::point::{build_step, probe_step};
use rules::{Axis, Phase, Search, Side, Trial};

// Puts the number v on axis a, the next of the trial: within the limits, and a stop where the clamp changes it.
pub(super) fn put(trial: &mut Trial, x: &Axis, a: usize, v: f64)
    requires { (a < 8) × (trial.old.stops ≤ a) }
    ensures { trial.new ≡ record { point = set trial.old.point a (brought_in x.now v); stops = trial.old.stops + cond (at_stop x.now v) 1 0 } }
{
    trial.point[a] = brought_in(x, v);
    if at_stop(x, v) {
        trial.stops += 1;
    }
}

// Trial i of a build around this point, which is companion i of a base there.
#[tactic(auto, using(crate::proofs::Laws::Filling::trials), unfolding(rules::specs::Simplex::up_to, rules::specs::Trial::stops_to))]
pub(super) fn built(s: &Search, around: &[f64; 8], i: usize, out: &mut Trial)
    requires { (s.now.setup.n ≤ 8) × (out.old ≡ no_trial) }
    ensures { out.new ≡ made s.now.setup s.now.setup.n (λ a. build_step (axis s.now.setup a) (get_or around.now a nan) i a) }
{
    let n = s.setup.n;
    for a in 0..n {
        let x = &s.setup.axes[a];
        put(out, x, a, build_step(x, around[a], i, a));
    }
}

// The reflected point.
#[tactic(auto, using(crate::proofs::Laws::Filling::trials), unfolding(rules::specs::Simplex::up_to, rules::specs::Trial::stops_to))]
fn reflected(s: &Search, out: &mut Trial)
    requires { (1 ≤ s.now.setup.n) × (s.now.setup.n ≤ 8) × (out.old ≡ no_trial) }
    ensures { out.new ≡ trial_in Reflecting s.now }
{
    let n = s.setup.n;
    let k = &s.setup.coefficients;
    let points = &s.standing.points;
    let c = centroid(points, n);
    for a in 0..n {
        let x = &s.setup.axes[a];
        let v = moved_from(c[a], k.alpha, c[a], points[8 * n + a]);
        put(out, x, a, v);
    }
}

// k times as far from c as r, towards it, on axis a, c being the centroid's coordinate. Here r is brought into its axis.
fn toward_reflected(s: &Search, k: f64, c: f64, a: usize) -> f64
    requires { (s.now.setup.n ≤ 8) × (a < 8) × (c ≡ centroid s.now.setup.n s.now.standing.points a) }
    ensures { result ≡ toward_reflected s.now.setup s.now.standing.points k a }
{
    let x = &s.setup.axes[a];
    let w = s.standing.points[8 * s.setup.n + a];
    let r = brought_in(x, moved_from(c, s.setup.coefficients.alpha, c, w));
    moved_from(c, k, r, c)
}

// The point k times as far from c as r: the expanded one and the outside one. The stops of r are not theirs.
#[tactic(auto, using(crate::proofs::Laws::Filling::trials), unfolding(rules::specs::Simplex::up_to, rules::specs::Trial::stops_to))]
fn along(s: &Search, k: f64, out: &mut Trial)
    requires { (1 ≤ s.now.setup.n) × (s.now.setup.n ≤ 8) × (out.old ≡ no_trial) }
    ensures { out.new ≡ made s.now.setup s.now.setup.n (toward_reflected s.now.setup s.now.standing.points k) }
{
    let n = s.setup.n;
    let c = centroid(&s.standing.points, n);
    for a in 0..n {
        put(out, &s.setup.axes[a], a, toward_reflected(s, k, c[a], a));
    }
}

// The inside point.
#[tactic(auto, using(crate::proofs::Laws::Filling::trials), unfolding(rules::specs::Simplex::up_to, rules::specs::Trial::stops_to))]
fn inside(s: &Search, out: &mut Trial)
    requires { (1 ≤ s.now.setup.n) × (s.now.setup.n ≤ 8) × (out.old ≡ no_trial) }
    ensures { out.new ≡ made s.now.setup s.now.setup.n (toward_worst s.now.setup s.now.standing.points) }
{
    let n = s.setup.n;
    let k = &s.setup.coefficients;
    let points = &s.standing.points;
    let c = centroid(points, n);
    for a in 0..n {
        let x = &s.setup.axes[a];
        let v = moved_from(c[a], k.beta, points[8 * n + a], c[a]);
        put(out, x, a, v);
    }
}

// The point that a shrink asks for place j, counted from 0.
#[tactic(auto, using(crate::proofs::Laws::Filling::trials), unfolding(rules::specs::Simplex::up_to, rules::specs::Trial::stops_to))]
fn shrunk(s: &Search, j: usize, out: &mut Trial)
    requires { (j ≤ s.now.setup.n) × (s.now.setup.n ≤ 8) × (out.old ≡ no_trial) }
    ensures { out.new ≡ trial_in (Shrinking j) s.now }
{
    let n = s.setup.n;
    let k = &s.setup.coefficients;
    let points = &s.standing.points;
    for a in 0..n {
        let x = &s.setup.axes[a];
        let v = moved_from(points[a], k.sigma, points[8 * j + a], points[a]);
        put(out, x, a, v);
    }
}

// Coordinate a of the reflection of companion i through the base, before it is brought into its axis.
fn through_base(points: &[f64; 72], i: usize, a: usize) -> f64
    requires { (i ≤ 8) × (a < 8) }
    ensures { result ≡ mirrored points.now i a }
{
    points[a] + (points[a] - points[8 * i + a])
}

// The reflection of companion i through the base.
#[tactic(auto, using(crate::proofs::Laws::Filling::trials), unfolding(rules::specs::Simplex::up_to, rules::specs::Trial::stops_to))]
fn mirrored(s: &Search, i: usize, out: &mut Trial)
    requires { (i ≤ s.now.setup.n) × (s.now.setup.n ≤ 8) × (out.old ≡ no_trial) }
    ensures { out.new ≡ trial_in (Mirroring i) s.now }
{
    let n = s.setup.n;
    let points = &s.standing.points;
    for a in 0..n {
        put(out, &s.setup.axes[a], a, through_base(points, i, a));
    }
}

// The point of companion i.
#[tactic(auto, using(crate::proofs::Laws::Filling::trials), unfolding(rules::specs::Simplex::up_to, rules::specs::Trial::stops_to))]
fn standing_at(s: &Search, i: usize, out: &mut Trial)
    requires { (i ≤ s.now.setup.n) × (s.now.setup.n ≤ 8) × (out.old ≡ no_trial) }
    ensures { out.new ≡ made s.now.setup s.now.setup.n (target s.now (Checking i)) }
{
    let n = s.setup.n;
    for a in 0..n {
        put(out, &s.setup.axes[a], a, s.standing.points[8 * i + a]);
    }
}

// Companion i, with the stops that it was made with.
fn checked(s: &Search, i: usize, out: &mut Trial)
    requires { (i ≤ s.now.setup.n) × (s.now.setup.n ≤ 8) × (out.old ≡ no_trial) }
    ensures { out.new ≡ trial_in (Checking i) s.now }
{
    standing_at(s, i, out);
    out.stops = s.stops[i];
}

// Probe p of a round.
#[tactic(auto, using(crate::proofs::Laws::Filling::trials), unfolding(rules::specs::Simplex::up_to, rules::specs::Trial::stops_to))]
fn probed(s: &Search, p: usize, out: &mut Trial)
    requires { (s.now.setup.n ≤ 8) × (out.old ≡ no_trial) }
    ensures { out.new ≡ trial_in (Probing p) s.now }
{
    let n = s.setup.n;
    for a in 0..n {
        let x = &s.setup.axes[a];
        put(out, x, a, probe_step(x, s.best.point[a], p, a));
    }
}

// The trial that the search would ask in this phase. One that has ended would ask none, and `Askable` rules it out.
pub(super) fn trial(s: &Search, phase: Phase) -> Trial
    requires { Askable s.now phase }
    ensures { result ≡ trial_in phase s.now }
{
    let mut out = Trial {
        point: [0.0; 8],
        stops: 0,
    };
    match phase {
        Phase::Building(i) => built(s, &s.center, i, &mut out),
        Phase::Reflecting => reflected(s, &mut out),
        Phase::Expanding => along(s, s.setup.coefficients.chi, &mut out),
        Phase::Contracting(Side::Outside) => along(s, s.setup.coefficients.beta, &mut out),
        Phase::Contracting(Side::Inside) => inside(s, &mut out),
        Phase::Shrinking(j) => shrunk(s, j, &mut out),
        Phase::Basing => built(s, &s.center, 0, &mut out),
        Phase::Mirroring(i) => mirrored(s, i, &mut out),
        Phase::Checking(i) => checked(s, i, &mut out),
        Phase::Probing(p) => probed(s, p, &mut out),
        Phase::Ended(_) => {}
    }
    out
}
