// The openings of the cases, over axes and rings from -8 with step 1, and their searches.
use rules::{Axis, Method, Opening, Rule, Search, USUAL};

// An axis from -8 to hi, step 1.
pub(super) fn axis(start: f64, hi: f64) -> Axis {
    Axis {
        lo: -8.0,
        hi,
        start,
        step: 1.0,
        ring: false,
    }
}

// A ring from -8 to hi, step 1.
pub(super) fn ring(start: f64, hi: f64) -> Axis {
    Axis {
        ring: true,
        ..axis(start, hi)
    }
}

// An opening over n axes from -8 to hi, all with this start and step 1, and the usual coefficients.
pub(super) fn opening(n: usize, start: f64, hi: f64, rule: Option<Rule>, budget: u64) -> Opening {
    Opening {
        method: Method::NelderMead,
        n,
        axes: [axis(start, hi); 8],
        rule,
        coefficients: USUAL,
        budget,
    }
}

// The search of that opening.
pub(super) fn search(n: usize, start: f64, hi: f64, rule: Option<Rule>, budget: u64) -> Search {
    engine::open_search(&opening(n, start, hi, rule, budget)).search
}

// The search of document 01's examples.
pub(super) fn paper_search() -> Search {
    search(2, 0.0, 8.0, Some(Rule::Spread(4)), 100)
}

// An opening whose second axis is y.
pub(super) fn with_second(given: Opening, y: Axis) -> Opening {
    let mut axes = given.axes;
    axes[1] = y;
    Opening { axes, ..given }
}
