// "Take from the front": a queue of waiting decisions, whose methods take self and return the next queue.
#![tactic(auto)]

ghost use Rattle.std.specs.Prelude.{◌≡◌, true, false, not, ℕ, ◌<◌, [], ◌∷◌, ◌++◌, MatchOption};
ghost use Rattle.whole.specs.Words.{mem, those};
ghost use Rattle.whole.specs.Masks.{these};

use std::marker::Model;
use whole::Members;

// 64 places that go round, where the front stands in them, how many wait, and a mask of those that do.
// Kept: an array with its length beside it, since there is no heap: 01 names the struct, and 64 places are enough.
#[derive(Clone, Copy)]
pub struct Queue {
    head: usize,
    len: usize,
    waiting: u64,
    places: [u8; 64],
}

// Clauses speak of who waits, the front first.
impl Model for Queue {
    ghost use Rattle.queue.specs.Waiting.{Waiting};

    ghost Value = { Waiting };

    ghost use Rattle.queue.specs.Fields.{seen, fields, QueueWhole};
    ghost use Rattle.queue.specs.FieldsLaws.{given_back};

    ghost view = { seen };

    ghost invariant = { QueueWhole };

    ghost inverse = { fields };

    ghost inverse_ok = { given_back };
}

impl Queue {
    // Nobody waits.
    pub fn new() -> Queue
        ensures { result.who ≡ [] }
    {
        Queue {
            head: 0,
            len: 0,
            waiting: 0,
            places: [0; 64],
        }
    }

    // Who is in front, and the queue of those behind.
    pub fn take_front(self) -> Option<(usize, Queue)>
        ensures { MatchOption result (self.who ≡ []) (λ r. (self.who ≡ r.0 ∷ r.1.who) × (r.0 < 64)) }
    {
        if self.len == 0 {
            return None;
        }
        let front = self.places[self.head] as usize;
        let one: u64 = 1 << front;
        let mut next = self;
        next.head = (next.head + 1) % 64;
        next.len -= 1;
        next.waiting = whole::without(next.waiting, one);
        Some((front, next))
    }

    // Those of a mask who do not wait.
    pub fn not_waiting(&self, of: u64) -> u64
        ensures { these result ≡ those (λ k. not (mem k self.now.who)) (these of) }
    {
        whole::without(of, self.waiting)
    }

    // The decisions of a mask, none of which waits, join the back, ascending: so there is room.
    pub fn push_all(self, new: u64) -> Queue
        requires { (k : ℕ) → mem k (these new) ≡ true → mem k self.who ≡ false }
        ensures { result.who ≡ self.who ++ these new }
    {
        let mut next = self;
        for d in Members(new) {
            let at = (next.head + next.len) % 64;
            next.places[at] = d as u8;
            next.len += 1;
        }
        next.waiting |= new;
        next
    }
}
