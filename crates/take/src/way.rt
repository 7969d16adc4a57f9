// Which way a take goes: decided before anything is done.
ghost use Rattle.std.specs.Prelude.{◌≡◌, ◌&&◌, leb, eqb, ◌<◌};
ghost use Rattle.accepted_laws.specs.Small.{Small};
ghost use Rattle.rules.specs.Options.{low_degree, degree_three};
ghost use Rattle.graph.specs.Near.{near_at};
ghost use Rattle.dominant_edge.specs.Answer.{answer_of};
ghost use Rattle.take.specs.Ways.{dominant_if, Decides};

use graph::{Graph, Near};
use rules::Options;

// Into: the dominant neighbour, and whether it is a weak one. Three: it is tried.
#[derive(Clone, Copy)]
pub enum Way {
    Inactive,
    Low,
    Into(usize, bool),
    Three,
    Idle,
}

// Low degree on and degree at most 2?
fn is_low(options: Options, degree: usize) -> bool
    ensures { result ≡ (low_degree options && leb degree 2) }
{
    options.low_degree && degree <= 2
}

// Low degree and degree three both on and degree 3?
fn is_three(options: Options, degree: usize) -> bool
    ensures { result ≡ (low_degree options && degree_three options && eqb degree 3) }
{
    options.low_degree && options.degree_three && degree == 3
}

// Dominant edge on: the dominant neighbour of i and whether it is weak, if it has one.
#[tactic(auto, unfolding(dominant_edge::specs::Answer::dominant_of))]
fn dominant_if(g: &Graph, i: usize, options: Options) -> Option<(usize, bool)>
    requires { (i < 64) × Small 1099511627776 g.now.linear × Small 2199023255552 g.now.edges }
    ensures { result ≡ answer_of g.now i (dominant_if options g.now i) }
{
    if options.dominant_edge {
        return dominant_edge::dominant_neighbour(g.edges(), g.linear(i), g.mask(i), i);
    }
    None
}

// Low degree, else a dominant neighbour, else degree three, else nothing.
pub fn decide(g: &Graph, near: Near, i: usize, options: Options) -> Way
    requires { (i < 64) × Small 1099511627776 g.now.linear × Small 2199023255552 g.now.edges }
    ensures { near ≡ near_at g.now i → Decides result options g.now i near }
{
    if !g.is_active(i) {
        return Way::Inactive;
    }
    if is_low(options, near.count) {
        return Way::Low;
    }
    if let Some((j, weak)) = dominant_if(g, i, options) {
        return Way::Into(j, weak);
    }
    if is_three(options, near.count) {
        return Way::Three;
    }
    Way::Idle
}
