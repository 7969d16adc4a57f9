// The public call: from the caller's lists to the reduced objective, the record and the counts.
#![tactic(auto)]

ghost use Rattle.std.specs.Prelude.{◌≡◌, ◌+◌, ◌<◌, ◌≤◌, length};
ghost use Rattle.rules.specs.Given.{of_lists};
ghost use Rattle.accepted_laws.specs.Accept.{Accepted};
ghost use Rattle.reduce.specs.Gives.{Done, Gives, record_from, counts_from, report_from};

use graph::Graph;
use rules::{Counts, Objective, Options, Record, Reduction, Refusal};
use run::Reached;
use state::State;
use state::steps::Steps;

// How to grow an answer back.
fn record_of(g: &Graph, made: &Steps) -> Record
    requires { length made.now ≤ 64 }
    ensures { result ≡ record_from g.now made.now }
{
    g.known();
    Record {
        n: g.n() as u8,
        count: made.len() as u8,
        constant: g.constant(),
        states: *g.states(),
        steps: *made.all(),
    }
}

fn counts_of(s: State, remaining: u32) -> Counts
    requires { s.blocks ≤ 32 }
    ensures { result ≡ counts_from s remaining }
{
    Counts {
        eliminated: s.tally.eliminated,
        degree_three_eliminated: s.tally.three,
        degree_three_skipped: s.tally.skipped,
        contracted: s.tally.contracted,
        weak_contractions: s.tally.weakly,
        additional_fixed: 0,
        remaining,
        passes: 1 + s.blocks,
        blocks_eliminated: s.blocks,
        block_variables: s.tally.in_blocks,
    }
}

// "One unit per take and one per block eliminated."
fn report(g: &Graph, reached: &Reached, remaining: u32, complete: bool) -> Reduction
    requires { (length reached.now.steps ≤ 64) × (reached.now.state.blocks ≤ 32) × (reached.now.state.takes + reached.now.state.blocks < 4294967296) }
    ensures { result ≡ report_from g.now reached.now remaining complete }
{
    let s = reached.state;
    Reduction {
        record: record_of(g, &reached.steps),
        counts: counts_of(s, remaining),
        takes: s.takes,
        blocks: s.blocks,
        units: s.units(),
        complete,
    }
}

// A call that is not refused. The lent outputs are written once, at the end.
pub fn accepted(o: Objective, linear: &mut [i64], edges: &mut [i64]) -> Reduction
    requires { Accepted (of_lists o) (length linear.old) (length edges.old) }
    ensures { Done (of_lists o.entry) result linear.new edges.new }
{
    let mut g = Graph::bare(o);
    g.begin(o);
    let (reached, ended) = run::run(&mut g, Options::from(o.switches), o.budget);
    g.known();
    let rest = outputs::still_there(g.states(), g.n());
    outputs::write_linear(linear, g.weights(), rest);
    outputs::write_edges(edges, g.edges(), g.masks(), rest);
    report(&g, &reached, rest.len as u32, ended.is_ok())
}

// "Any lengths, numbers and bytes may be passed": a refusal with the lent slices unchanged, or the whole reduction.
pub fn reduce(o: Objective, linear: &mut [i64], edges: &mut [i64]) -> Result<Reduction, Refusal>
    ensures { Gives (of_lists o.entry) linear.old edges.old result linear.new edges.new }
{
    refusal::refusal(o, linear.len(), edges.len(), false)?;
    Ok(accepted(o, linear, edges))
}
