// One place of a simplex, read from and written to the flat runs of points, costs and numbers. Each function asks that its place is one of the nine:
// a type for a place would be made of an index and taken apart at once.
ghost use Rattle.std.specs.Prelude.{◌≡◌, ◌<◌, ◌≤◌, [], set};
ghost use Rattle.rules.specs.Simplex.{pack, unpack, place};
ghost use Rattle.engine.specs.Places.{put_at, Holds};

use rules::{Simplex, Vertex};

// The point at place i, counted from 0.
pub(super) fn point_at(s: &Simplex, i: usize) -> [f64; 8]
    requires { i < 9 }
    ensures { result ≡ (place s.now i).point }
{
    let mut point = [0.0f64; 8];
    point.copy_from_slice(&s.points[8 * i..8 * i + 8]);
    point
}

// The vertex at place i, counted from 0.
pub(super) fn place_at(s: &Simplex, i: usize) -> Vertex
    requires { i < 9 }
    ensures { result ≡ place s.now i }
{
    Vertex {
        point: point_at(s, i),
        cost: s.costs[i],
        number: s.numbers[i],
    }
}

// Puts the vertex v at place i, counted from 0.
pub(super) fn put(s: &mut Simplex, i: usize, v: Vertex)
    requires { i < 9 }
    ensures { s.new ≡ put_at s.old i v }
{
    s.points[8 * i..8 * i + 8].copy_from_slice(&v.point);
    s.costs[i] = v.cost;
    s.numbers[i] = v.number;
}

// Blanks the places from len on, counted from 0.
pub(super) fn clear(s: &mut Simplex, len: usize)
    requires { len ≤ 9 }
    ensures { Holds len s.new (unpack len s.old) }
{
    s.points[8 * len..].fill(0.0);
    s.costs[len..].fill(0);
    s.numbers[len..].fill(0);
}

// Puts v over the vertex at place i, counted from 0, among the first len; blank places after these.
pub(super) fn replace(s: &mut Simplex, i: usize, len: usize, v: Vertex)
    requires { (i < len) × (len ≤ 9) }
    ensures { Holds len s.new (set (unpack len s.old) i v) }
{
    clear(s, len);
    put(s, i, v);
}

// A simplex of nine blank places. Written out and not derived: document 01 gives the run of 72 numbers in this form.
#[tactic(auto, unfolding(rules::specs::Simplex::store, rules::specs::Simplex::flat))]
pub(super) fn blank() -> Simplex
    ensures { result ≡ pack [] }
{
    Simplex {
        points: [0.0f64; 72],
        costs: [0u64; 9],
        numbers: [0u64; 9],
    }
}
