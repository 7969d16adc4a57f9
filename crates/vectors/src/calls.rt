// refusals.txt: a call and its answer. crowded.txt: a call, what is written of it, and the counts.
use crate::{answers, counts, texts};
use lists::{Fields, list};
use rules::{Objective, Reduction, Refusal};

// Memory for a call's lists.
#[derive(Clone, Copy)]
struct Lists {
    weights: [i64; 80],
    firsts: [u32; 4160],
    seconds: [u32; 4160],
    term_weights: [i64; 4160],
    fixings: [u8; 80],
}

// An objective, and how long the outputs are.
#[derive(Clone, Copy)]
struct Call<'a> {
    objective: Objective<'a>,
    linear: u32,
    edges: u32,
}

impl Lists {
    fn new() -> Lists {
        Lists {
            weights: [0; 80],
            firsts: [0; 4160],
            seconds: [0; 4160],
            term_weights: [0; 4160],
            fixings: [0; 80],
        }
    }

    // `N SWITCHES BUDGET LINEAR EDGES;WEIGHTS;FIRSTS;SECONDS;TERM WEIGHTS;FIXINGS;`
    fn read(&mut self, fields: &mut Fields) -> Option<Call<'_>> {
        let Lists {
            weights,
            firsts,
            seconds,
            term_weights,
            fixings,
        } = self;
        let n = fields.number(b' ')?;
        let switches = fields.number(b' ')?;
        let budget = fields.number(b' ')?;
        let linear = fields.number(b' ')?;
        let edges = fields.number(b';')?;
        let objective = Objective {
            n,
            weights: list(fields.until(b';')?, weights)?,
            firsts: list(fields.until(b';')?, firsts)?,
            seconds: list(fields.until(b';')?, seconds)?,
            term_weights: list(fields.until(b';')?, term_weights)?,
            fixings: list(fields.until(b';')?, fixings)?,
            switches,
            budget,
        };
        Some(Call {
            objective,
            linear,
            edges,
        })
    }
}

// As much as is asked of what there is.
fn front(cells: &mut [i64], asked: u32) -> &mut [i64] {
    let n = cells.len().min(asked as usize);
    &mut cells[..n]
}

impl Call<'_> {
    fn reduce(&self, linear: &mut [i64], edges: &mut [i64]) -> Result<Reduction, Refusal> {
        let linear = front(linear, self.linear);
        let edges = front(edges, self.edges);
        reduce::reduce(self.objective, linear, edges)
    }
}

// A refusal leaves every cell as it was.
pub fn refuses(line: &[u8]) -> Option<bool> {
    let mut lists = Lists::new();
    let mut fields = Fields { rest: line };
    let call = lists.read(&mut fields)?;
    let mut linear = [77i64; 4160];
    let mut edges = [77i64; 4160];
    let reduced = call.reduce(&mut linear, &mut edges);
    let is_answered = fields.number::<u8>(b'\n')? == answers::number_of(&reduced);
    let is_kept = reduced.is_ok() || linear.iter().chain(&edges).all(|cell| *cell == 77);
    Some(is_answered && is_kept && fields.rest.is_empty())
}

pub fn reduces(entry: &[u8]) -> Option<bool> {
    let mut lists = Lists::new();
    let mut fields = Fields { rest: entry };
    let call = lists.read(&mut fields)?;
    let reduced = call.reduce(&mut [0; 4160], &mut [0; 4160]);
    let is_answered = fields.number::<u8>(b'\n')? == answers::number_of(&reduced);
    let mut out = reply::buffer();
    let m = reply::reply_to(call.objective, &mut out);
    let is_written = texts::is_told(fields.until(b'\n')?, out.get(..m)?);
    let are_counted = counts::are_told(fields.until(b'\n')?, &reduced)?;
    Some(is_answered && is_written && are_counted && fields.rest.is_empty())
}
