// How a base and its companions come to stand, in the multidirectional search. Companion i stands at place i + 1, so at index i from 0. All are
// made of the places as they stand before the change. Why `Ready` stands in the contracts is said in accept.rt.
ghost use Rattle.std.specs.Prelude.{◌≡◌, [], ◌≤◌, replicate};
ghost use Rattle.rules.specs.Numbers.{max_cost};
ghost use Rattle.rules.specs.Simplex.{pack};
ghost use Rattle.rules.specs.Companions.{unread_at, halved, base_after, companion_after, stop_after, group_after, stops_by};
ghost use Rattle.engine.specs.Places.{no_trial};
ghost use Rattle.engine.specs.Ready.{Ready};

use super::float::moved_from;
use super::place::{blank, place_at, put};
use super::trial;
use rules::{Change, Phase, Search, Simplex, Trial, Vertex};

// A companion with its stops.
#[derive(Clone, Copy)]
struct Made {
    vertex: Vertex,
    stops: u64,
}

// Companion i, half the way to the base.
#[tactic(auto, using(crate::proofs::Laws::Filling::trials), unfolding(rules::specs::Simplex::up_to, rules::specs::Trial::stops_to))]
fn halved(s: &Search, i: usize, out: &mut Trial)
    requires { (s.now.setup.n ≤ 8) × (i ≤ 8) × (out.old ≡ no_trial) }
    ensures { out.new ≡ halved s.now i }
{
    let points = &s.standing.points;
    for a in 0..s.setup.n {
        let x = &s.setup.axes[a];
        let v = moved_from(points[8 * i + a], 0.5, points[a], points[8 * i + a]);
        trial::put(out, x, a, v);
    }
}

// What a swap puts in a companion's place, which is read: no stops are kept for it.
fn read(vertex: Vertex) -> Made
    ensures vertex { result.vertex ≡ vertex }
    ensures stops { result.stops ≡ 0 }
{
    Made { vertex, stops: 0 }
}

// A companion as made, unread.
fn unread(x: Trial) -> Made
    ensures vertex { result.vertex ≡ unread_at x }
    ensures stops { result.stops ≡ x.stops }
{
    let Trial { point, stops } = x;
    let vertex = Vertex {
        point,
        cost: 0,
        number: 0,
    };
    Made { vertex, stops }
}

// Companion i after a change: made anew, the reflection that was told for it, the old base where it is the lower one, or as it stood.
fn companion(s: &Search, change: Change, u: &Vertex, i: usize) -> Made
    requires { (Ready s.now) × (1 ≤ i) × (i ≤ s.now.setup.n) }
    ensures vertex { result.vertex ≡ companion_after change u.now s.now i }
    ensures stops { result.stops ≡ stop_after change u.now s.now i }
{
    let mut made = Trial {
        point: [0.0; 8],
        stops: 0,
    };
    match change {
        Change::Built => {
            trial::built(s, &u.point, i, &mut made);
            unread(made)
        }
        Change::Mirrored(j) if i < j => read(place_at(&s.gathered, i - 1)),
        Change::Mirrored(j) if j < i => unread(trial::trial(s, Phase::Mirroring(i))),
        Change::Swapped(j) if i != j => Made {
            vertex: place_at(&s.standing, i),
            stops: s.stops[i],
        },
        Change::Mirrored(_) | Change::Swapped(_) => read(place_at(&s.standing, 0)),
        Change::Halved => {
            halved(s, i, &mut made);
            unread(made)
        }
    }
}

// The base after a change: the reading, but for companions that are halved, which keep theirs.
fn base(s: &Search, change: Change, u: &Vertex) -> Vertex
    ensures { result ≡ base_after change u.now s.now }
{
    match change {
        Change::Built | Change::Mirrored(_) | Change::Swapped(_) => *u,
        Change::Halved => place_at(&s.standing, 0),
    }
}

// The base and the companions after a change, in blank places, and the stops of the companions.
fn group(s: &Search, change: Change, u: &Vertex, places: &mut Simplex, stops: &mut [u64; 9])
    requires { (Ready s.now) × (places.old ≡ pack []) × (stops.old ≡ replicate 9 0) }
    ensures places { places.new ≡ pack (group_after change u.now s.now) }
    ensures stops { stops.new ≡ stops_by (stop_after change u.now s.now) s.now.setup.n }
{
    put(places, 0, base(s, change, u));
    for k in 0..s.setup.n {
        let made = companion(s, change, u, k + 1);
        put(places, k + 1, made.vertex);
        stops[k + 1] = made.stops;
    }
}

// The base and the companions stand as after the change, with the stops of these. A function of its own, since its places are a whole simplex.
#[tactic(auto, using(crate::proofs::Laws::Accepting::places, crate::proofs::Laws::Turning::low_after))]
pub(super) fn regroup(s: &mut Search, change: Change, u: &Vertex)
    requires { (Ready s.old) × (u.now.cost ≤ max_cost) }
    ensures stands { s.new ≡ record s.old { standing = pack (group_after change u.now s.old); stops = stops_by (stop_after change u.now s.old) s.old.setup.n } }
    ensures ready { Ready s.new }
{
    let mut places = blank();
    let mut stops = [0u64; 9];
    group(s, change, u, &mut places, &mut stops);
    s.standing = places;
    s.stops = stops;
}
