// A newcomer among the places, after all of equal cost, or after all: the recursion of document 01, on one vertex fewer at each call. That
// len ≤ 8, asked for in each contract, leaves it a place; a Simplex does not carry how many vertices it has.
ghost use Rattle.std.specs.Prelude.{[], ◌++◌, ◌∷◌, ◌+◌, ◌≤◌, take, drop};
ghost use Rattle.rules.specs.Simplex.{unpack, insert};
ghost use Rattle.engine.specs.Places.{Clean, Holds};

use super::place::{clear, put};
use rules::{Simplex, Vertex};

// Puts v at place i, and the vertices from there to len one place further.
fn put_before(s: &mut Simplex, i: usize, len: usize, v: Vertex)
    requires { (i ≤ len) × (len ≤ 8) × Clean len s.old }
    ensures { Holds (len + 1) s.new (take i (unpack len s.old) ++ v ∷ drop i (unpack len s.old)) }
{
    s.points.copy_within(8 * i..8 * len, 8 * i + 8);
    s.costs.copy_within(i..len, i + 1);
    s.numbers.copy_within(i..len, i + 1);
    put(s, i, v);
}

// Puts v among the vertices at places i to len. At each call one vertex fewer is left.
#[tactic(auto, using(crate::proofs::Laws::Placing::inserts))]
fn insert_from(s: &mut Simplex, i: usize, len: usize, v: Vertex)
    requires { (i ≤ len) × (len ≤ 8) × Clean len s.old }
    ensures { Holds (len + 1) s.new (take i (unpack len s.old) ++ insert v (drop i (unpack len s.old))) }
{
    if i < len && s.costs[i] <= v.cost {
        insert_from(s, i + 1, len, v);
    } else {
        put_before(s, i, len, v);
    }
}

// Puts v among the first len vertices of s, after all of equal cost; blank places after them.
pub(super) fn insert(s: &mut Simplex, len: usize, v: Vertex)
    requires { len ≤ 8 }
    ensures { Holds (len + 1) s.new (insert v (unpack len s.old)) }
{
    clear(s, len);
    insert_from(s, 0, len, v);
}

// Puts v after the first len vertices of s; blank places after it.
pub(super) fn append(s: &mut Simplex, len: usize, v: Vertex)
    requires { len ≤ 8 }
    ensures { Holds (len + 1) s.new (unpack len s.old ++ v ∷ []) }
{
    clear(s, len);
    put_before(s, len, len, v);
}
