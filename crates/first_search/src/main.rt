// A first search by the calls of the engine. README.md shows `run`, line for line. It prints how many readings were taken, and the best.

#![tactic(auto)]

use rules::{Axis, Method, Opening, Refusal, USUAL, Vertex};
use std::io;
use std::num::saturating_f64_to_u64;

// At most so many readings.
const BUDGET: u64 = 200;

// Two axes, offset and tilt, each from -4 to 4; the stopping rule that an opening gets if it names none.
fn opening() -> Opening {
    let axis = Axis {
        lo: -4.0,
        hi: 4.0,
        start: 0.0,
        step: 0.5,
        ring: false,
    };
    Opening {
        method: Method::NelderMead,
        n: 2,
        axes: [axis; 8],
        rule: None,
        coefficients: USUAL,
        budget: BUDGET,
    }
}

// In the place of a camera: a bowl whose lowest point is at offset 1.3, tilt -0.6, as a whole number. The fraction is dropped.
fn cost_of(point: &[f64; 8]) -> u64 {
    let [offset, tilt, ..] = *point;
    let (x, y) = (offset - 1.3, tilt + 0.6);
    saturating_f64_to_u64(1000.0 * (x * x) + 4000.0 * (y * y))
}

// A whole search: how many readings were taken, and the best of them. A refused ask says that the search has ended.
fn run() -> Result<(u64, Vertex), Refusal> {
    let opened = engine::open_search(&opening());
    opened.verdict?;
    let mut search = opened.search;
    for _ in 0..BUDGET {
        let Ok(asked) = engine::ask(&search) else {
            break;
        };
        let cost = cost_of(&asked.trial.point);
        engine::tell(&mut search, asked.number, cost)?;
    }
    let best = engine::best(&search)?;
    Ok((search.readings, best))
}

// Prints what was found, or the number of the refusal that a call answered.
fn main(rt: HostRuntime) -> io::Result<()> {
    match run() {
        Ok((readings, best)) => {
            let [offset, tilt, ..] = best.point;
            let (mut offset_text, mut tilt_text) = (ryu::Buffer::new(), ryu::Buffer::new());
            let (offset, tilt) = (offset_text.format(offset), tilt_text.format(tilt));
            println!(rt;
                "{readings} readings, best at {offset}, {tilt} with cost {}, reading {}",
                best.cost, best.number
            )
        }
        Err(refusal) => println!(rt; "refused {}", engine::refusal_number(refusal)),
    }
}
