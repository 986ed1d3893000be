// The parts of a search that a script can write, as no call would (docs/REPLAY.md).
use numerals::float_of;
use rules::{Cause, Counts, Method, Phase, Rule, Search, Side};

// One of the nine counts.
#[derive(Clone, Copy)]
pub(super) enum Count {
    Builds,
    Reflections,
    Expansions,
    Contractions,
    Shrinks,
    Probes,
    Open,
    Patterns,
    Directed,
}

// A part with what is written there. Places and axes count from 0 here.
#[derive(Clone, Copy)]
pub(super) enum Part {
    Axes(usize),
    Budget(u64),
    Readings(u64),
    Count(Count, u64),
    Phase(Phase),
    Standing(usize, u64),
    Gathered(usize, u64),
    Best(u64),
    Rule(Rule),
    Lo(usize, f64),
    Hi(usize, f64),
    StandingNumber(usize, u64),
    GatheredNumber(usize, u64),
    BestNumber(u64),
    Ring(usize, bool),
    Method(Method),
    Stops(usize, u64),
}

// The method that a number names.
pub(super) fn method_of(kind: u64) -> Option<Method> {
    match kind {
        0 => Some(Method::NelderMead),
        1 => Some(Method::Multidirectional),
        _ => None,
    }
}

// Whether an axis is a ring: 0 or 1.
pub(super) fn ring_of(value: u64) -> Option<bool> {
    match value {
        0 => Some(false),
        1 => Some(true),
        _ => None,
    }
}

// The rule that a number names, with the threshold that a word says.
pub(super) fn rule_of(kind: u64, threshold: u64) -> Option<Rule> {
    match kind {
        1 => Some(Rule::Spread(threshold)),
        2 => Some(Rule::Moved(float_of(threshold))),
        3 => Some(Rule::Size(float_of(threshold))),
        _ => None,
    }
}

// The phase of a number, with its detail where it has one.
fn phase_of(kind: u64, detail: u64) -> Option<Phase> {
    match kind {
        0 => Some(Phase::Building(detail as usize)),
        1 => Some(Phase::Reflecting),
        2 => Some(Phase::Expanding),
        3 => Some(Phase::Contracting(Side::Outside)),
        4 => Some(Phase::Contracting(Side::Inside)),
        5 => Some(Phase::Shrinking(detail as usize)),
        6 => Some(Phase::Probing(detail as usize)),
        7 => Some(Phase::Ended(Cause::Settled)),
        8 => Some(Phase::Ended(Cause::Budget)),
        9 => Some(Phase::Basing),
        10 => Some(Phase::Mirroring(detail as usize)),
        11 => Some(Phase::Checking(detail as usize)),
        _ => None,
    }
}

// The count of a number, from 1.
fn count_of(which: u64) -> Option<Count> {
    match which {
        1 => Some(Count::Builds),
        2 => Some(Count::Reflections),
        3 => Some(Count::Expansions),
        4 => Some(Count::Contractions),
        5 => Some(Count::Shrinks),
        6 => Some(Count::Probes),
        7 => Some(Count::Open),
        8 => Some(Count::Patterns),
        9 => Some(Count::Directed),
        _ => None,
    }
}

// A place by its number, from 1.
fn place_of(which: u64) -> Option<usize> {
    match which {
        1..=9 => Some((which - 1) as usize),
        _ => None,
    }
}

// An axis by its number, from 1.
fn axis_of(which: u64) -> Option<usize> {
    match which {
        1..=8 => Some((which - 1) as usize),
        _ => None,
    }
}

// The part that three words say.
pub(super) fn part_of(part: u64, which: u64, value: u64) -> Option<Part> {
    match (part, which) {
        (0, 0) => Some(Part::Axes(value as usize)),
        (1, 0) => Some(Part::Budget(value)),
        (2, 0) => Some(Part::Readings(value)),
        (3, _) => Some(Part::Count(count_of(which)?, value)),
        (4, _) => Some(Part::Phase(phase_of(which, value)?)),
        (5, _) => Some(Part::Standing(place_of(which)?, value)),
        (6, _) => Some(Part::Gathered(place_of(which)?, value)),
        (7, 0) => Some(Part::Best(value)),
        (8, _) => Some(Part::Rule(rule_of(which, value)?)),
        (9, _) => Some(Part::Lo(axis_of(which)?, float_of(value))),
        (10, _) => Some(Part::Hi(axis_of(which)?, float_of(value))),
        (11, _) => Some(Part::StandingNumber(place_of(which)?, value)),
        (12, _) => Some(Part::GatheredNumber(place_of(which)?, value)),
        (13, 0) => Some(Part::BestNumber(value)),
        (14, _) => Some(Part::Ring(axis_of(which)?, ring_of(value)?)),
        (15, 0) => Some(Part::Method(method_of(value)?)),
        (16, _) => Some(Part::Stops(place_of(which)?, value)),
        _ => None,
    }
}

// Writes one count.
fn put_count(counts: &mut Counts, count: Count, value: u64) {
    match count {
        Count::Builds => counts.builds = value,
        Count::Reflections => counts.reflections = value,
        Count::Expansions => counts.expansions = value,
        Count::Contractions => counts.contractions = value,
        Count::Shrinks => counts.shrinks = value,
        Count::Probes => counts.probes = value,
        Count::Open => counts.unfinished = value,
        Count::Patterns => counts.patterns = value,
        Count::Directed => counts.directed = value,
    }
}

// Writes the cost, the number or the stops at a place.
fn put_at(run: &mut [u64; 9], place: usize, value: u64) {
    if let Some(entry) = run.get_mut(place) {
        *entry = value;
    }
}

// Writes a part of a search.
pub(super) fn put(search: &mut Search, part: Part) {
    match part {
        Part::Axes(n) => search.setup.n = n,
        Part::Budget(budget) => search.setup.budget = budget,
        Part::Readings(readings) => search.readings = readings,
        Part::Count(count, value) => put_count(&mut search.counts, count, value),
        Part::Phase(phase) => search.phase = phase,
        Part::Standing(place, cost) => put_at(&mut search.standing.costs, place, cost),
        Part::Gathered(place, cost) => put_at(&mut search.gathered.costs, place, cost),
        Part::Best(cost) => search.best.cost = cost,
        Part::Rule(rule) => search.setup.rule = rule,
        Part::Lo(axis, lo) => {
            if let Some(record) = search.setup.axes.get_mut(axis) {
                record.lo = lo;
            }
        }
        Part::Hi(axis, hi) => {
            if let Some(record) = search.setup.axes.get_mut(axis) {
                record.hi = hi;
            }
        }
        Part::StandingNumber(place, number) => put_at(&mut search.standing.numbers, place, number),
        Part::GatheredNumber(place, number) => put_at(&mut search.gathered.numbers, place, number),
        Part::BestNumber(number) => search.best.number = number,
        Part::Ring(axis, ring) => {
            if let Some(record) = search.setup.axes.get_mut(axis) {
                record.ring = ring;
            }
        }
        Part::Method(method) => search.method = method,
        Part::Stops(place, stops) => put_at(&mut search.stops, place, stops),
    }
}
