// What an accepted reading decides: document 01's table, the multidirectional iteration, and the ends of builds, shrinks and probe rounds.
ghost use Rattle.std.specs.Prelude.{◌≡◌, ◌*◌, ◌≤◌, ◌<◌};
ghost use Rattle.rules.specs.Companions.{next_unread};
ghost use Rattle.rules.specs.Decide.{wins, lower, checks_from, restart, decided, completed, finished_by};
ghost use Rattle.rules.specs.declared.Phase.TheVariants.{Reflecting, Mirroring, Checking, Probing};
ghost use Rattle.engine.specs.Ready.{Ready};

use rules::{Cause, Change, Decision, Keeping, Method, Newcomer, Phase, Piece, Search, Side};

// r told: the four rows of the table, by the costs at places 1, n and n + 1. It is gathered where e or a contraction follows.
#[tactic(auto, unfolding(rules::specs::Decide::decided))]
fn reflected_on(s: &Search, fr: u64) -> Decision
    requires { (1 ≤ s.now.setup.n) × (s.now.setup.n ≤ 8) }
    ensures { result ≡ decided Reflecting s.now fr }
{
    let n = s.setup.n;
    let costs = &s.standing.costs;
    if fr < costs[0] {
        Decision::Go(Keeping::Joined, Phase::Expanding)
    } else if fr < costs[n - 1] {
        Decision::Take(Piece::Reflection, Newcomer::Latest)
    } else if fr < costs[n] {
        Decision::Go(Keeping::Joined, Phase::Contracting(Side::Outside))
    } else {
        Decision::Go(Keeping::Joined, Phase::Contracting(Side::Inside))
    }
}

// Whether the outside or inside point is taken; the outside one is held against r, the first of the gathered vertices.
fn wins(s: &Search, side: Side, fc: u64) -> bool
    requires { s.now.setup.n ≤ 8 }
    ensures { result ≡ wins side fc s.now }
{
    match side {
        Side::Outside => fc <= s.gathered.costs[0],
        Side::Inside => fc < s.standing.costs[s.setup.n],
    }
}

// Whether a cost is lower than that of the base, which stands at place 1.
fn lower(s: &Search, cost: u64) -> bool
    ensures { result ≡ lower cost s.now }
{
    cost < s.standing.costs[0]
}

// The first unread companion of n, from the i-th on, by the numbers of the places; n + 1 where there is none. At each call one companion
// fewer is left.
#[tactic(auto, using(crate::proofs::Laws::Turning::nexts))]
fn next_unread(n: usize, numbers: &[u64; 9], i: usize) -> usize
    requires { n ≤ 8 }
    ensures { result ≡ next_unread n numbers.now i }
{
    if i <= n && numbers[i] != 0 {
        next_unread(n, numbers, i + 1)
    } else {
        i
    }
}

// The unread companions are asked, from the i-th on; where there is none, all are halved.
fn checks_from(s: &Search, i: usize, keeping: Keeping) -> Decision
    requires { s.now.setup.n ≤ 8 }
    ensures { result ≡ checks_from i keeping s.now }
{
    let n = s.setup.n;
    let j = next_unread(n, &s.standing.numbers, i);
    if j <= n {
        Decision::Go(keeping, Phase::Checking(j))
    } else {
        Decision::Regroup(Change::Halved)
    }
}

// Reflection i of the companions told: a lower one is the base, the last of them leads to the unread companions.
#[tactic(auto, unfolding(rules::specs::Decide::decided))]
fn mirrored_on(s: &Search, i: usize, cost: u64) -> Decision
    requires { (s.now.setup.n ≤ 8) × (i ≤ s.now.setup.n) }
    ensures { result ≡ decided (Mirroring i) s.now cost }
{
    if lower(s, cost) {
        Decision::Regroup(Change::Mirrored(i))
    } else if i == s.setup.n {
        checks_from(s, 1, Keeping::Told(i))
    } else {
        Decision::Go(Keeping::Told(i), Phase::Mirroring(i + 1))
    }
}

// Companion i told: a lower one changes places with the base.
#[tactic(auto, unfolding(rules::specs::Decide::decided))]
fn checked_on(s: &Search, i: usize, cost: u64) -> Decision
    requires { (s.now.setup.n ≤ 8) × (i ≤ s.now.setup.n) }
    ensures { result ≡ decided (Checking i) s.now cost }
{
    if lower(s, cost) {
        Decision::Regroup(Change::Swapped(i))
    } else {
        checks_from(s, i + 1, Keeping::Read(i))
    }
}

// What a lower probe begins: a build, or companions built around it.
fn restart(method: Method) -> Decision
    ensures { result ≡ restart method }
{
    match method {
        Method::NelderMead => Decision::Restart,
        Method::Multidirectional => Decision::Regroup(Change::Built),
    }
}

// Probe p told: a lower one restarts, the last of a full round settles the search.
#[tactic(auto, unfolding(rules::specs::Decide::decided))]
fn probed_on(s: &Search, p: usize, cost: u64) -> Decision
    requires { (s.now.setup.n ≤ 8) × (p < 2 * s.now.setup.n) }
    ensures { result ≡ decided (Probing p) s.now cost }
{
    if cost < s.best.cost {
        restart(s.method)
    } else if p + 1 == 2 * s.setup.n {
        Decision::Go(Keeping::Nothing, Phase::Ended(Cause::Settled))
    } else {
        Decision::Go(Keeping::Nothing, Phase::Probing(p + 1))
    }
}

// What a reading of this cost decides in each phase. Why `Ready` stands in its contract is said in accept.rt.
#[tactic(auto, unfolding(rules::specs::Decide::decided))]
pub(super) fn decided(s: &Search, cost: u64) -> Decision
    requires { Ready s.now }
    ensures { result ≡ decided s.now.phase s.now cost }
{
    let n = s.setup.n;
    match s.phase {
        Phase::Building(i) if i == n => Decision::Stand(Piece::Build),
        Phase::Building(i) => Decision::Go(Keeping::Joined, Phase::Building(i + 1)),
        Phase::Reflecting => reflected_on(s, cost),
        Phase::Expanding if cost < s.gathered.costs[0] => Decision::Take(
            Piece::Expansion,
            Newcomer::Latest,
        ),
        Phase::Expanding => Decision::Take(Piece::Expansion, Newcomer::Reflected),
        Phase::Contracting(side) if wins(s, side, cost) => Decision::Take(
            Piece::Contraction,
            Newcomer::Latest,
        ),
        Phase::Contracting(_) => Decision::Go(Keeping::First, Phase::Shrinking(1)),
        Phase::Shrinking(j) if j == n => Decision::Stand(Piece::Shrink),
        Phase::Shrinking(j) => Decision::Go(Keeping::Joined, Phase::Shrinking(j + 1)),
        Phase::Basing => Decision::Regroup(Change::Built),
        Phase::Mirroring(i) => mirrored_on(s, i, cost),
        Phase::Checking(i) => checked_on(s, i, cost),
        Phase::Probing(p) => probed_on(s, p, cost),
        Phase::Ended(cause) => Decision::Go(Keeping::Nothing, Phase::Ended(cause)),
    }
}

// A change ends a multidirectional iteration, but where companions are built.
fn completed(change: Change) -> Option<Piece>
    ensures { result ≡ completed change }
{
    match change {
        Change::Built => None,
        Change::Mirrored(_) | Change::Swapped(_) | Change::Halved => Some(Piece::Pattern),
    }
}

// The piece that a decision finishes, if any.
pub(super) fn finished_by(decision: Decision) -> Option<Piece>
    ensures { result ≡ finished_by decision }
{
    match decision {
        Decision::Take(piece, _) | Decision::Stand(piece) => Some(piece),
        Decision::Regroup(change) => completed(change),
        Decision::Go(_, _) | Decision::Restart => None,
    }
}
