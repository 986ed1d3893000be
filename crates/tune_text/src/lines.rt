// The lines of the output.
ghost use Rattle.std.specs.Prelude.{◌≡◌, [], ◌∷◌, ◌++◌, ◌≤◌, decimal, min, length};
ghost use Rattle.rules.specs.Refusals.{number_of};
ghost use Rattle.tune_text.specs.Fields.{newline};
ghost use Rattle.tune_text.specs.Lines.{spaced_bits, coordinates, numbered_line, point_and_cost, reading_line, end_and, best_line, end_line, refused_line, bad_line};
ghost use Rattle.tune_text.specs.Handed.{Room};

use crate::Line;
use itoa::Buffer;
use numerals::bits_of;
use rules::{Cause, Refusal, Vertex};

// Adds the bytes of a word to a line. Each of these functions asks for the room that its own bytes take, so no type says it for all;
// and n and a vertex are two parameters, as the definitions take them.
fn put(line: &mut Line, word: &[u8])
    requires { Room (length word.now) line.old.items }
    ensures { line.new.items ≡ line.old.items ++ word.now }
{
    line.try_extend_from_slice(word).unwrap();
}

// Adds a whole number in decimal to a line.
fn put_decimal(line: &mut Line, n: u64)
    requires { Room 20 line.old.items }
    ensures added { line.new.items ≡ line.old.items ++ decimal n }
    ensures short { length (decimal n) ≤ 20 }
{
    put(line, Buffer::new().format(n).as_bytes());
}

// Adds a coordinate by its bits, after a space. `io::hex` gives their digits, in a buffer of sixteen: tried by `write!`, whose promise
// leaves open whether it succeeds.
fn put_coordinate(line: &mut Line, x: f64)
    requires { Room 17 line.old.items }
    ensures { line.new.items ≡ line.old.items ++ spaced_bits x }
{
    let mut digits = [0u8; 16];
    let k = io::hex(bits_of(x), 16, &mut digits);
    put(line, b" ");
    put(line, &digits[..k]);
}

// Adds the first n coordinates of a point, at most eight.
#[tactic(auto, using(crate::proofs::Laws::Coordinates::lengths), unfolding(crate::specs::Lines::coordinates))]
fn put_point(line: &mut Line, n: usize, point: &[f64; 8])
    requires { Room 136 line.old.items }
    ensures { line.new.items ≡ line.old.items ++ coordinates (min n 8) point.now }
{
    for x in &point[..n.min(8)] {
        put_coordinate(line, *x);
    }
}

// Adds a whole number and the line's end.
fn put_last(line: &mut Line, n: u64)
    requires { Room 21 line.old.items }
    ensures { line.new.items ≡ line.old.items ++ (decimal n ++ (newline ∷ [])) }
{
    put_decimal(line, n);
    put(line, b"\n");
}

// Adds the first n coordinates of a vertex and its cost.
#[tactic(auto, using(crate::proofs::Laws::Coordinates::lengths))]
fn put_point_and_cost(line: &mut Line, n: usize, vertex: &Vertex)
    requires { Room 157 line.old.items }
    ensures added { line.new.items ≡ line.old.items ++ point_and_cost n vertex.now }
    ensures short { length (point_and_cost n vertex.now) ≤ 157 }
{
    put_point(line, n, &vertex.point);
    put(line, b" ");
    put_decimal(line, vertex.cost);
}

// An accepted reading: its number, its point and its cost.
pub(super) fn reading(n: usize, vertex: &Vertex) -> Line
    ensures { result.items ≡ reading_line n vertex.now }
{
    let mut line = Line::new();
    put_decimal(&mut line, vertex.number);
    put_point_and_cost(&mut line, n, vertex);
    put(&mut line, b"\n");
    line
}

// `end` and the cause; `waiting` where there is none.
fn end_and(cause: Option<Cause>) -> Line
    ensures { result.items ≡ end_and cause }
{
    let mut line = Line::new();
    match cause {
        None => put(&mut line, b"end waiting"),
        Some(Cause::Settled) => put(&mut line, b"end settled"),
        Some(Cause::Budget) => put(&mut line, b"end budget"),
    }
    line
}

// The last line with the best reading: its point, its cost and its number.
pub(super) fn best(cause: Option<Cause>, n: usize, vertex: &Vertex) -> Line
    ensures { result.items ≡ best_line cause n vertex.now }
{
    let mut line = end_and(cause);
    put_point_and_cost(&mut line, n, vertex);
    put(&mut line, b" ");
    put_last(&mut line, vertex.number);
    line
}

// The last line without a best reading.
pub(super) fn end(cause: Option<Cause>) -> Line
    ensures { result.items ≡ end_line cause }
{
    let mut line = end_and(cause);
    put(&mut line, b"\n");
    line
}

// A word of at most eight bytes, a whole number after it and the line's end.
fn numbered(word: &[u8], n: u64) -> Line
    requires { length word.now ≤ 8 }
    ensures { result.items ≡ numbered_line word.now n }
{
    let mut line = Line::new();
    put(&mut line, word);
    put_last(&mut line, n);
    line
}

// A refusal by its number.
pub(super) fn refused(refusal: Refusal) -> Line
    ensures { result.items ≡ refused_line (number_of refusal) }
{
    numbered(b"refused ", engine::refusal_number(refusal))
}

// A malformed line by its number.
pub(super) fn bad(line: u64) -> Line
    ensures { result.items ≡ bad_line line }
{
    numbered(b"bad ", line)
}
