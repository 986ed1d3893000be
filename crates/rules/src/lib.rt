// The types of document 01, "Specification of the build and its rules", and the numbers of it that code needs. The rules
// themselves are the definitions in specs/; this crate has no function but what its types derive.

#![tactic(auto)]

// The largest cost, which the camera tells for a dark frame; `max_cost` of specs/Numbers.
pub const MAX_COST: u64 = 16777215;

// The largest budget; `max_budget` of specs/Numbers.
pub const MAX_BUDGET: u64 = 1000000;

// The largest threshold of the rule spread; `max_spread` of specs/Numbers.
pub const MAX_SPREAD: u64 = 4294967295;

// The usual coefficients; `usual` of specs/Numbers.
pub const USUAL: Coefficients = Coefficients {
    alpha: 1.0,
    chi: 2.0,
    beta: 0.5,
    sigma: 0.5,
};

// One axis record: its limits, the position where it starts, the first step along it, and whether it is a ring, whose hi is the same position
// as its lo.
#[derive(Clone, Copy, Default)]
pub struct Axis {
    pub lo: f64,
    pub hi: f64,
    pub start: f64,
    pub step: f64,
    pub ring: bool,
}

// The coefficients of reflection (alpha), expansion (chi), contraction (beta) and shrink (sigma).
#[derive(Clone, Copy, Default)]
pub struct Coefficients {
    pub alpha: f64,
    pub chi: f64,
    pub beta: f64,
    pub sigma: f64,
}

// A stopping rule with its threshold E.
#[derive(Clone, Copy)]
pub enum Rule {
    Spread(u64),
    Moved(f64),
    Size(f64),
}

// How a search goes: Nelder-Mead's, which moves a simplex, or the multidirectional one, which moves a base and its companions.
#[derive(Clone, Copy)]
pub enum Method {
    NelderMead,
    Multidirectional,
}

// What an opening asks for: the method, the axis count n, eight axis records of which those past n are not read, a stopping rule or
// none, the coefficients and the budget. Document 01 gives n and eight records.
#[derive(Clone, Copy)]
pub struct Opening {
    pub method: Method,
    pub n: usize,
    pub axes: [Axis; 8],
    pub rule: Option<Rule>,
    pub coefficients: Coefficients,
    pub budget: u64,
}

// The side of a contraction: towards the reflected point, or towards the worst vertex.
#[derive(Clone, Copy)]
pub enum Side {
    Outside,
    Inside,
}

// Why a search has ended.
#[derive(Clone, Copy)]
pub enum Cause {
    Settled,
    Budget,
}

// What the next reading is for.
#[derive(Clone, Copy)]
pub enum Phase {
    // trial i of a build, from 0; a restart begins at 1, since its point's cost is known
    Building(usize),
    // the reflected point
    Reflecting,
    // the expanded point, r being gathered
    Expanding,
    // the contracted point on that side, r being gathered
    Contracting(Side),
    // the shrunk point for place j, counted from 0, so 1 to n
    Shrinking(usize),
    // the base of a multidirectional search, which has no companions yet
    Basing,
    // the reflection of companion i through the base, 1 to n
    Mirroring(usize),
    // companion i, 1 to n, which is unread
    Checking(usize),
    // probe p of a round, from 0
    Probing(usize),
    Ended(Cause),
}

// What a phase is, apart from its own trial and its own row of the table. What treats most phases alike asks this.
#[derive(Clone, Copy)]
pub enum View {
    // trial i of a build
    Builds(usize),
    // an iteration of Nelder-Mead, which has gathered so many vertices
    Iterates(usize),
    // a multidirectional iteration
    Turns,
    // probe p of a round
    Probes(usize),
    // no trial is asked any more
    Over(Cause),
}

// A build, an iteration of Nelder-Mead by the row of the table that ends it, or a multidirectional iteration: what the counts count.
#[derive(Clone, Copy)]
pub enum Piece {
    Build,
    Reflection,
    Expansion,
    Contraction,
    Shrink,
    Pattern,
}

// Who enters the simplex when a point is taken.
#[derive(Clone, Copy)]
pub enum Newcomer {
    // the trial told just now
    Latest,
    // r, told before it
    Reflected,
}

// What is kept of a reading where a piece or a probe round goes on: what is gathered, or that a companion is read.
#[derive(Clone, Copy)]
pub enum Keeping {
    // nothing more
    Nothing,
    // the trial, among the vertices gathered before: a build or a shrink that is not at its end; r alone
    Joined,
    // x1 alone: a shrink begins
    First,
    // the trial, as the i-th reflection that this iteration was told
    Told(usize),
    // nothing more, but companion i stands as read
    Read(usize),
}

// How a base and its companions come to stand.
#[derive(Clone, Copy)]
pub enum Change {
    // the trial is the base, and companions are built around it
    Built,
    // reflection j is the base, and the reflections are its companions, but for the old base
    Mirrored(usize),
    // companion j is the base, and the old base is companion j
    Swapped(usize),
    // the companions go half the way to the base
    Halved,
}

// What a reading decides, by the table or by the multidirectional iteration.
#[derive(Clone, Copy)]
pub enum Decision {
    // the piece or the probe round goes on, or the search has settled: what is gathered, and the next phase
    Go(Keeping, Phase),
    // the newcomer replaces w, which ends this piece: it is counted, the rule is tested, nothing is gathered
    Take(Piece, Newcomer),
    // the gathered vertices stand, the trial among them, which ends a build or a shrink: it is counted, the rule is tested, nothing
    // is gathered
    Stand(Piece),
    // a probe was lower in Nelder-Mead: a build goes around it, from trial 1 on, with the probe gathered
    Restart,
    // a base and its companions stand so, and nothing is gathered; except where companions are built this ends an iteration: it is counted, and the
    // rule is tested
    Regroup(Change),
}

// A point to be measured, and how many axes of it the clamp changed: its stops. Coordinates past the axis count are 0.
#[derive(Clone, Copy, Default)]
pub struct Trial {
    pub point: [f64; 8],
    pub stops: u64,
}

// A point with its cost and the number, from 1, of the reading that gave it: 0 where none did. Coordinates past the axis count are 0.
#[derive(Clone, Copy, Default)]
pub struct Vertex {
    pub point: [f64; 8],
    pub cost: u64,
    pub number: u64,
}

// Nine places in one flat run: coordinate a of place i, both from 0, stands at 8 * i + a. Document 01 names the run of points, so the costs
// and the numbers stand beside it.
#[derive(Clone, Copy)]
pub struct Simplex {
    pub points: [f64; 72],
    pub costs: [u64; 9],
    pub numbers: [u64; 9],
}

// Finished builds, reflections, expansions, contractions and shrinks; finished multidirectional iterations, as patterns, and the readings told in
// such iterations, finished or not, as directed; probe readings; and the readings told in the unfinished piece, which document 01 calls Open.
#[derive(Clone, Copy, Default)]
pub struct Counts {
    pub builds: u64,
    pub reflections: u64,
    pub expansions: u64,
    pub contractions: u64,
    pub shrinks: u64,
    pub patterns: u64,
    pub probes: u64,
    pub unfinished: u64,
    pub directed: u64,
}

// What an opening fixes for good: the axis count n, the axes (zero records past n), coefficients, rule and budget. n beside eight records is
// document 01's form.
#[derive(Clone, Copy)]
pub struct Setup {
    pub n: usize,
    pub axes: [Axis; 8],
    pub coefficients: Coefficients,
    pub rule: Rule,
    pub budget: u64,
}

// A search: the standing simplex is that of the last finished build or iteration, the gathered one holds
// what an unfinished build or iteration has so far, and the center is the point that a build goes around. In the multidirectional method the base
// stands at place 1 and companion i at place i + 1, an unread one with the number 0 and its stops beside; the reflections told in the running
// iteration are gathered. The best is zeros until there is a reading, and no Option: document 01 has a closed search all zero.
#[derive(Clone, Copy)]
pub struct Search {
    pub setup: Setup,
    pub method: Method,
    pub phase: Phase,
    pub standing: Simplex,
    pub gathered: Simplex,
    pub stops: [u64; 9],
    pub center: [f64; 8],
    pub readings: u64,
    pub best: Vertex,
    pub counts: Counts,
}

// A refusal, with the axis, from 1, where the table gives one. The rules set out the number of each.
#[derive(Clone, Copy)]
pub enum Refusal {
    AxisCount,
    OutOfRange(usize),
    BadLimits(usize),
    BadStep(usize),
    BadCoefficient,
    BadThreshold,
    BadBudget,
    SearchEnded,
    CostTooHigh,
    WrongNumber,
    NoReading,
    Damaged,
    RingAtHi(usize),
    RuleOfMethod,
}

// The answer of an opening: whether it is accepted, and the search, which is closed where it is not. Document 01 has a search in both,
// so the whole is no Result.
#[derive(Clone, Copy)]
pub struct Opened {
    pub verdict: Result<(), Refusal>,
    pub search: Search,
}

// What ask answers: the trial with its reading number.
#[derive(Clone, Copy, Default)]
pub struct Asked {
    pub number: u64,
    pub trial: Trial,
}
