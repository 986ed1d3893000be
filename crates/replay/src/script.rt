// The lines of a script.
use super::parts::{self, Part};
use arrayvec::ArrayVec;
use numerals::{float_of, from_digits};
use rules::{Axis, Coefficients, Method, Opening};

// What a line says. Letters, methods and the kinds of a rule are matched once, here at the edge: a script is text.
#[derive(Clone, Copy)]
pub(super) enum Command {
    Open(Opening),
    Ask,
    Tell {
        number: u64,
        cost: u64,
    },
    Best,
    State,
    Put(Part),
    Series {
        method: Method,
        n: usize,
        readings: u64,
    },
}

// The most readings of a series.
const MOST_READINGS: u64 = 16777216;

// The word that a field says: a space and sixteen digits.
fn word(field: &[u8]) -> Option<u64> {
    match field {
        [b' ', digits @ ..] if digits.len() == 16 => from_digits(digits, 16),
        _ => None,
    }
}

// The words that the fields of a line say, of which no line has more than forty-nine.
fn words(fields: &[u8]) -> Option<ArrayVec<u64, 49>> {
    let mut words = ArrayVec::new();
    for field in fields.chunks(17) {
        words.try_push(word(field)?).ok()?;
    }
    Some(words)
}

// The axis record that five words say, if the last says whether it is a ring.
fn axis_of([lo, hi, start, step, ring]: [u64; 5]) -> Option<Axis> {
    Some(Axis {
        lo: float_of(lo),
        hi: float_of(hi),
        start: float_of(start),
        step: float_of(step),
        ring: parts::ring_of(ring)?,
    })
}

// The eight axis records that these words say, five for each.
fn axes_of(words: &[u64]) -> Option<[Axis; 8]> {
    let (records, []) = words.as_chunks() else {
        return None;
    };
    let records: [[u64; 5]; 8] = *records.as_array()?;
    let mut axes = [Axis::default(); 8];
    for (axis, record) in axes.iter_mut().zip(records) {
        *axis = axis_of(record)?;
    }
    Some(axes)
}

// The opening that forty-nine words say, if they name a method, and a rule or none.
fn opening_of(words: &[u64]) -> Option<Opening> {
    let (first, records) = words.split_first_chunk::<9>()?;
    let [method, n, kind, threshold, alpha, chi, beta, sigma, budget] = *first;
    let axes = axes_of(records)?;
    let rule = match kind {
        0 => None,
        _ => Some(parts::rule_of(kind, threshold)?),
    };
    let coefficients = Coefficients {
        alpha: float_of(alpha),
        chi: float_of(chi),
        beta: float_of(beta),
        sigma: float_of(sigma),
    };
    Some(Opening {
        method: parts::method_of(method)?,
        n: n as usize,
        axes,
        rule,
        coefficients,
        budget,
    })
}

// The command that a line says, if its form is right.
pub(super) fn command_of(line: &[u8]) -> Option<Command> {
    let (letter, fields) = line.strip_suffix(b"\n")?.split_first()?;
    let words = words(fields)?;
    match (*letter, words.as_slice()) {
        (b'o', words) => opening_of(words).map(Command::Open),
        (b'a', &[]) => Some(Command::Ask),
        (b't', &[number, cost]) => Some(Command::Tell { number, cost }),
        (b'b', &[]) => Some(Command::Best),
        (b's', &[]) => Some(Command::State),
        (b'p', &[part, which, value]) => parts::part_of(part, which, value).map(Command::Put),
        (b'r', &[method, n, readings]) if readings <= MOST_READINGS => Some(Command::Series {
            method: parts::method_of(method)?,
            n: n as usize,
            readings,
        }),
        _ => None,
    }
}
