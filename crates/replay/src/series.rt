// A series of searches with a generated cost.
use super::calls;
use numerals::{bits_of, float_of};
use rules::{Axis, MAX_BUDGET, Method, Opening, Refusal, Rule, USUAL};

// What a series told: how many searches, and the sum of their costs.
#[derive(Clone, Copy, Default)]
pub(super) struct Total {
    pub(super) searches: u64,
    pub(super) sum: u64,
}

// The generator's next number.
fn following(generated: u64) -> u64 {
    let a = generated ^ (generated << 13);
    let b = a ^ (a >> 7);
    b ^ (b << 17)
}

// The point that the next search's bowl stands around; the generator goes on by a number for each axis.
fn next_bowl(n: usize, generated: &mut u64) -> [f64; 8] {
    let mut around = [0.0; 8];
    for x in around.iter_mut().take(n) {
        *generated = following(*generated);
        *x = 8.0 * float_of((*generated >> 12) | 0x3ff0_0000_0000_0000) - 12.0;
    }
    around
}

// The cost of a trial: the bits of 1 and its squared distance, without the last forty. Past the axes both points are 0, which adds nothing.
fn cost_of(point: &[f64; 8], around: &[f64; 8]) -> u64 {
    let sum = point
        .iter()
        .zip(around)
        .fold(1.0, |sum, (x, t)| sum + (*x - *t) * (*x - *t));
    bits_of(sum) >> 40
}

// The rule that an opening of a series names: none in Nelder-Mead.
fn rule_of(method: Method) -> Option<Rule> {
    match method {
        Method::NelderMead => None,
        Method::Multidirectional => Some(Rule::Size(0.0009765625)),
    }
}

// The opening of every search of a series.
pub(super) fn opening(method: Method, n: usize) -> Opening {
    let axis = Axis {
        lo: -8.0,
        hi: 8.0,
        start: 0.0,
        step: 1.0,
        ring: false,
    };
    Opening {
        method,
        n,
        axes: [axis; 8],
        rule: rule_of(method),
        coefficients: USUAL,
        budget: MAX_BUDGET,
    }
}

// A series on n axes, so many readings in all: a search that refuses to be asked has ended, and the next one takes its place.
pub(super) fn run(method: Method, n: usize, readings: u64) -> Result<Total, Refusal> {
    let opened = engine::open_search(&opening(method, n));
    opened.verdict?;
    let fresh = opened.search;
    let mut search = calls::closed();
    let mut around = [0.0; 8];
    let mut generated = 1;
    let mut total = Total::default();
    for _ in 0..readings {
        let asked = match engine::ask(&search) {
            Ok(asked) => asked,
            Err(_) => {
                search = fresh;
                around = next_bowl(n, &mut generated);
                total.searches = total.searches.wrapping_add(1);
                engine::ask(&search)?
            }
        };
        let cost = cost_of(&asked.trial.point, &around);
        engine::tell(&mut search, asked.number, cost)?;
        total.sum = total.sum.wrapping_add(cost);
    }
    Ok(total)
}
