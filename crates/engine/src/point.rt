// Points: a step of a build and of a probe on one axis, before it is brought into the axis, and a point cut after n coordinates.
ghost use Rattle.std.specs.Prelude.{◌≡◌, ◌<◌};
ghost use Rattle.rules.specs.Binary64.{0ᶠ};
ghost use Rattle.rules.specs.Simplex.{first_of};
ghost use Rattle.rules.specs.Trial.{build_step, probe_step};

use rules::Axis;

// Trial i of a build from v on axis a: a step along its own axis, back where the step would pass hi and the axis is no ring; v itself on every
// other axis.
pub(super) fn build_step(x: &Axis, v: f64, i: usize, a: usize) -> f64
    requires { a < 8 }
    ensures { result ≡ build_step x.now v i a }
{
    if i != a + 1 {
        v
    } else if x.ring || v + x.step <= x.hi {
        v + x.step
    } else {
        v - x.step
    }
}

// Probe p from v on axis a: even ones forward, odd ones back, two for each axis.
pub(super) fn probe_step(x: &Axis, v: f64, p: usize, a: usize) -> f64
    ensures { result ≡ probe_step x.now v p a }
{
    let d = x.step * 0.0009765625;
    if p / 2 != a {
        v
    } else if p % 2 == 0 {
        v + d
    } else {
        v - d
    }
}

// The first n coordinates of a point, zero after them; `keep` of the opening is its twin, and says why.
pub(super) fn shown(n: usize, point: [f64; 8]) -> [f64; 8]
    ensures { result ≡ first_of n 0ᶠ point }
{
    let mut out = point;
    out[n.min(8)..].fill(0.0);
    out
}
