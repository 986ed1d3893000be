// The calls of a script, each with its answer.
use super::parts;
use super::script::Command;
use super::series::{self, Total};
use rules::{Asked, Method, Refusal, Search, Vertex};

// What a command is answered.
#[derive(Clone, Copy)]
pub(super) enum Answer {
    Opened(Result<(), Refusal>),
    Asked(Result<Asked, Refusal>),
    Told(Result<(), Refusal>),
    Best(Result<Vertex, Refusal>),
    State(Search),
    Put,
    Series(Result<Total, Refusal>),
}

// The number of an answer's verdict: the refusal's, or 0, as docs/REPLAY.md has it in a transcript.
pub(super) fn number_of<T>(answer: &Result<T, Refusal>) -> u64 {
    match answer {
        Ok(_) => 0,
        Err(refusal) => engine::refusal_number(*refusal),
    }
}

// The axis that comes with a refusal, or 0, as docs/REPLAY.md has it.
pub(super) fn axis_of(verdict: &Result<(), Refusal>) -> u64 {
    match verdict {
        Ok(_) => 0,
        Err(refusal) => engine::refusal_axis(*refusal).unwrap_or(0) as u64,
    }
}

// The closed search, which any refused opening gives, as one on no axes.
pub(super) fn closed() -> Search {
    engine::open_search(&series::opening(Method::NelderMead, 0)).search
}

// Does what a command says. A value and no closure: it is read from text.
pub(super) fn make(search: &mut Search, command: Command) -> Answer {
    match command {
        Command::Open(given) => {
            let opened = engine::open_search(&given);
            *search = opened.search;
            Answer::Opened(opened.verdict)
        }
        Command::Ask => Answer::Asked(engine::ask(search)),
        Command::Tell { number, cost } => Answer::Told(engine::tell(search, number, cost)),
        Command::Best => Answer::Best(engine::best(search)),
        Command::State => Answer::State(*search),
        Command::Put(part) => {
            parts::put(search, part);
            Answer::Put
        }
        Command::Series {
            method,
            n,
            readings,
        } => Answer::Series(series::run(method, n, readings)),
    }
}
