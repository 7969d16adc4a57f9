// Who waits: those that a pass queues, and those that join the back after a reduction.
ghost use Rattle.std.specs.Prelude.{◌≡◌, ◌<◌};
ghost use Rattle.whole.specs.Masks.{these};
ghost use Rattle.rules.specs.Run.{eligible, waiting, join};
ghost use Rattle.state.specs.Joins.{may_join as joins};

use graph::Graph;
use queue::Queue;
use rules::Options;

// "dominant edge is on, or low degree is on and its degree is at most 3 (degree three on) or 2 (off)"
fn is_eligible(g: &Graph, options: Options, i: usize) -> bool
    requires { i < 64 }
    ensures { result ≡ eligible options g.now i }
{
    let highest = if options.degree_three { 3 } else { 2 };
    options.dominant_edge || options.low_degree && g.degree(i) <= highest
}

// Active, and now eligible.
fn may_join(g: &Graph, options: Options, j: usize) -> bool
    requires { j < 64 }
    ensures { result ≡ joins options g.now j }
{
    g.is_active(j) && is_eligible(g, options, j)
}

// "A pass queues, ascending, every active decision that is eligible."
pub fn first_queue(g: &Graph, options: Options) -> Queue
    ensures { result.who ≡ waiting options g.now }
{
    g.known();
    let who = whole::those(u64::MAX, |i| i < g.n() && may_join(g, options, i));
    let nobody = Queue::new();
    nobody.push_all(who)
}

// "its neighbours as they were (ascending) join the back if active, not waiting and now eligible": those of the mask.
pub fn rejoin(g: &Graph, options: Options, queue: Queue, near: u64) -> Queue
    ensures { result.who ≡ join options g.now (these near) queue.who }
{
    let others = queue.not_waiting(near);
    let who = whole::those(others, |j| may_join(g, options, j));
    queue.push_all(who)
}
