// The lines of a transcript.
use super::calls::{Answer, axis_of, number_of};
use super::series::Total;
use arrayvec::ArrayString;
use numerals::bits_of;
use rules::{Asked, Axis, Cause, Method, Phase, Rule, Search, Setup, Side, Simplex, Vertex};
use std::fmt::{Display, Formatter, Write};
use std::{fmt, io};

// Words of a line, which a state has 268 of. Each is written as one piece, and not by `{word:016x}`: docs/LOOK-BACK.md has the times.
#[derive(Clone, Copy)]
struct Words<'a>(&'a [u64]);

impl Display for Words<'_> {
    fn fmt<W: fmt::Write>(&self, f: &mut Formatter<W>) -> fmt::Result {
        let mut text = [b' '; 17];
        for word in self.0 {
            hex::encode_to_slice(word.to_be_bytes(), &mut text[1..]).map_err(|_| fmt::Error)?;
            f.write_str(str::from_utf8(&text).map_err(|_| fmt::Error)?)?;
        }
        Ok(())
    }
}

// A point as words, and the number that goes with it: a reading's cost, a trial's stops.
#[derive(Clone, Copy)]
struct PointWith<'a>(&'a [f64; 8], u64);

impl Display for PointWith<'_> {
    fn fmt<W: fmt::Write>(&self, f: &mut Formatter<W>) -> fmt::Result {
        let PointWith(point, number) = *self;
        write!(f, "{}{}", Words(&point.map(bits_of)), Words(&[number]))
    }
}

// A vertex as words: its point, its cost and its number.
fn vertex<W: fmt::Write>(f: &mut Formatter<W>, vertex: &Vertex) -> fmt::Result {
    let with_cost = PointWith(&vertex.point, vertex.cost);
    write!(f, "{with_cost}{}", Words(&[vertex.number]))
}

// The phase's number in docs/REPLAY.md, and its detail: the vertices or probes that an unfinished piece has so far, or the companion.
fn numbered(phase: Phase) -> (u64, u64) {
    match phase {
        Phase::Building(built) => (0, built as u64),
        Phase::Reflecting => (1, 0),
        Phase::Expanding => (2, 0),
        Phase::Contracting(Side::Outside) => (3, 0),
        Phase::Contracting(Side::Inside) => (4, 0),
        Phase::Shrinking(shrunk) => (5, shrunk as u64),
        Phase::Probing(told) => (6, told as u64),
        Phase::Ended(Cause::Settled) => (7, 0),
        Phase::Ended(Cause::Budget) => (8, 0),
        Phase::Basing => (9, 0),
        Phase::Mirroring(companion) => (10, companion as u64),
        Phase::Checking(companion) => (11, companion as u64),
    }
}

impl Display for Answer {
    fn fmt<W: fmt::Write>(&self, f: &mut Formatter<W>) -> fmt::Result {
        match self {
            Answer::Opened(verdict) => {
                write!(f, "o{}", Words(&[number_of(verdict), axis_of(verdict)]))
            }
            Answer::Asked(asked) => {
                let Asked { number, trial } = asked.unwrap_or_default();
                let words = Words(&[number_of(asked), number]);
                write!(f, "a{words}{}", PointWith(&trial.point, trial.stops))
            }
            Answer::Told(verdict) => write!(f, "t{}", Words(&[number_of(verdict)])),
            Answer::Best(best) => {
                write!(f, "b{}", Words(&[number_of(best)]))?;
                vertex(f, &best.unwrap_or_default())
            }
            Answer::State(search) => state(f, search),
            Answer::Put => write!(f, "p"),
            Answer::Series(total) => {
                let Total { searches, sum } = total.unwrap_or_default();
                write!(f, "r{}", Words(&[number_of(total), searches, sum]))
            }
        }
    }
}

// A method's number in docs/REPLAY.md.
fn by_method(method: Method) -> u64 {
    match method {
        Method::NelderMead => 0,
        Method::Multidirectional => 1,
    }
}

// A rule's number in docs/REPLAY.md, and its threshold as a word.
fn ruled(rule: Rule) -> (u64, u64) {
    match rule {
        Rule::Spread(threshold) => (1, threshold),
        Rule::Moved(threshold) => (2, bits_of(threshold)),
        Rule::Size(threshold) => (3, bits_of(threshold)),
    }
}

// An axis record as words.
fn axis<W: fmt::Write>(f: &mut Formatter<W>, axis: &Axis) -> fmt::Result {
    let Axis {
        lo,
        hi,
        start,
        step,
        ring,
    } = *axis;
    let numbers = [lo, hi, start, step];
    let words = Words(&[u64::from(ring)]);
    write!(f, "{}{words}", Words(&numbers.map(bits_of)))
}

// What the opening fixed, in the words of an `o` line, after the method.
fn setup<W: fmt::Write>(f: &mut Formatter<W>, setup: &Setup) -> fmt::Result {
    let (kind, threshold) = ruled(setup.rule);
    let by = setup.coefficients;
    let coefficients = [by.alpha, by.chi, by.beta, by.sigma];
    let first = [setup.n as u64, kind, threshold];
    write!(
        f,
        "{}{}{}",
        Words(&first),
        Words(&coefficients.map(bits_of)),
        Words(&[setup.budget])
    )?;
    for record in &setup.axes {
        axis(f, record)?;
    }
    Ok(())
}

// Where the search stands: its phase, readings and counts.
fn progress<W: fmt::Write>(f: &mut Formatter<W>, search: &Search) -> fmt::Result {
    let (phase, detail) = numbered(search.phase);
    let counts = &search.counts;
    let words = [
        phase,
        detail,
        search.readings,
        counts.builds,
        counts.reflections,
        counts.expansions,
        counts.contractions,
        counts.shrinks,
        counts.probes,
        counts.unfinished,
        counts.patterns,
        counts.directed,
    ];
    write!(f, "{}", Words(&words))
}

// The nine places of a simplex.
fn places<W: fmt::Write>(f: &mut Formatter<W>, simplex: &Simplex) -> fmt::Result {
    let (points, _) = simplex.points.as_chunks();
    let measures = simplex.costs.iter().zip(&simplex.numbers);
    for (point, (cost, number)) in points.iter().zip(measures) {
        let read = Vertex {
            point: *point,
            cost: *cost,
            number: *number,
        };
        vertex(f, &read)?;
    }
    Ok(())
}

// The state line: every part of a search.
fn state<W: fmt::Write>(f: &mut Formatter<W>, search: &Search) -> fmt::Result {
    write!(f, "s{}", Words(&[by_method(search.method)]))?;
    setup(f, &search.setup)?;
    progress(f, search)?;
    vertex(f, &search.best)?;
    write!(f, "{}", Words(&search.center.map(bits_of)))?;
    places(f, &search.standing)?;
    places(f, &search.gathered)?;
    write!(f, "{}", Words(&search.stops))
}

// What is said of the script's line of this number where it is malformed.
#[derive(Clone, Copy)]
pub(super) struct Malformed(pub(super) u64);

impl Display for Malformed {
    fn fmt<W: fmt::Write>(&self, f: &mut Formatter<W>) -> fmt::Result {
        write!(f, "x{}", Words(&[self.0]))
    }
}

// Room for a line; the longest, of a state, has 4,558 bytes.
pub(super) type Line = ArrayString<4608>;

// Prints a line by a write of its own, so that no answer waits for the call after it.
pub(super) fn line(rt: &impl Print, out: &mut Line, said: &impl Display) -> io::Result<()> {
    out.clear();
    writeln!(out, "{said}").map_err(|_| io::ErrorKind::WriteZero)?;
    rt.write_all(out.as_bytes())
}
