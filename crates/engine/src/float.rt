// The arithmetic of one axis: the clamp, the turn of a ring, and the form of every move but a reflection through a base.
ghost use Rattle.std.specs.Prelude.{◌≡◌};
ghost use Rattle.rules.specs.Binary64.{clamp, brought_round};
ghost use Rattle.rules.specs.Trial.{move, brought_in, at_stop, within};

use rules::Axis;

// v within the limits: a NaN and whatever is below lo become lo, whatever is above hi becomes hi. It is written out since document 01
// gives its two tests, and the library's clamp keeps a NaN.
fn clamp(x: &Axis, v: f64) -> f64
    ensures { result ≡ clamp x.now.lo x.now.hi v }
{
    if x.lo <= v {
        if v <= x.hi { v } else { x.hi }
    } else {
        x.lo
    }
}

// v by one turn, where it is not from lo to below hi; lo where that does not bring it there.
fn brought_round(x: &Axis, v: f64) -> f64
    ensures { result ≡ brought_round x.now.lo x.now.hi v }
{
    let u = if x.lo <= v {
        if v < x.hi { v } else { v - (x.hi - x.lo) }
    } else {
        v + (x.hi - x.lo)
    };
    if x.lo <= u && u < x.hi { u } else { x.lo }
}

// v within the limits: clamped, on a ring brought round.
pub(super) fn brought_in(x: &Axis, v: f64) -> f64
    ensures { result ≡ brought_in x.now v }
{
    if x.ring {
        brought_round(x, v)
    } else {
        clamp(x, v)
    }
}

// Whether the clamp changes v; a ring has no stops.
pub(super) fn at_stop(x: &Axis, v: f64) -> bool
    ensures { result ≡ at_stop x.now v }
{
    !x.ring && !(x.lo <= v && v <= x.hi)
}

// Whether v is a position of the axis: from lo to hi, on a ring below hi.
pub(super) fn within(x: &Axis, v: f64) -> bool
    ensures { result ≡ within x.now v }
{
    x.lo <= v && if x.ring { v < x.hi } else { v <= x.hi }
}

// from + k * (to - back), the form of every move but that reflection.
pub(super) fn moved_from(from: f64, k: f64, to: f64, back: f64) -> f64
    ensures { result ≡ move from k to back }
{
    from + k * (to - back)
}
