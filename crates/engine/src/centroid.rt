// The centroid: on every axis the sum of places 1 to n in place order, divided by n. All eight axes are summed at once, place by place, so that
// the processor adds several in one step; those past n are not looked at.
ghost use Rattle.std.specs.Prelude.{◌≡◌, ℕ, ◌≤◌, ◌<◌, get_or};
ghost use Rattle.std.specs.Float.{nan};
ghost use Rattle.rules.specs.Binary64.{◌⊕◌, ◌⊘◌};
ghost use Rattle.rules.specs.Simplex.{point};
ghost use Rattle.rules.specs.Trial.{entry, centroid};

// The sums x with place i, counted from 0, added on each axis.
#[tactic(auto, using(crate::proofs::Laws::Filling::point_more), unfolding(rules::specs::Simplex::up_to))]
fn with_place(x: [f64; 8], points: &[f64; 72], i: usize) -> [f64; 8]
    requires { i < 9 }
    ensures { result ≡ point 8 (λ a. get_or x a nan ⊕ entry points.now a i) }
{
    let mut out = [0.0; 8];
    for a in 0..8 {
        out[a] = x[a] + points[8 * i + a];
    }
    out
}

// x / n on each axis.
#[tactic(auto, using(crate::proofs::Laws::Filling::point_more), unfolding(rules::specs::Simplex::up_to))]
fn over(x: [f64; 8], n: f64) -> [f64; 8]
    ensures { result ≡ point 8 (λ a. get_or x a nan ⊘ n) }
{
    let mut out = [0.0; 8];
    for a in 0..8 {
        out[a] = x[a] / n;
    }
    out
}

// c on every axis. The run of 72 numbers with n beside it is document 01's, and its bounds are those of a search that may be made up.
#[tactic(auto, using(rules::proofs::Laws::Lists::get_or_point, crate::proofs::Laws::Filling::sum_more), unfolding(rules::specs::Trial::sum_to, rules::specs::Trial::centroid))]
pub(super) fn centroid(points: &[f64; 72], n: usize) -> [f64; 8]
    requires { (1 ≤ n) × (n ≤ 8) }
    ensures { (a : ℕ) → a < 8 → get_or result a nan ≡ centroid n points.now a }
{
    let mut sum = [0.0; 8];
    sum.copy_from_slice(&points[..8]);
    for i in 1..n {
        sum = with_place(sum, points, i);
    }
    over(sum, n as f64)
}
