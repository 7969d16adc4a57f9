// "then the steps last to first, each by its choice": a thin walk over a lent slice of steps.
#![tactic(auto)]

ghost use Rattle.std.specs.Prelude.{◌≡◌, map};
ghost use Rattle.rules.specs.Record.{played};
ghost use Rattle.rules.specs.Back.{play_all};

pub fn walk_back(steps: &[rules::Step], plan: [u8; 64]) -> [u8; 64]
    ensures { result ≡ play_all (map played steps.now) plan }
{
    back::play::play_back(steps, plan)
}
