// A state byte: 0 or 1 fixed, 2 remaining, 3 eliminated. Anything else breaks the body.
ghost use Rattle.std.specs.Prelude.{◌≡◌};
ghost use Rattle.broken.specs.Marks.{mark_of};

#[derive(Clone, Copy, Debug, PartialEq, Eq)]
pub enum Mark {
    Fixed(u8),
    Remaining,
    Eliminated,
}

// The one place that decides a state byte.
pub fn mark_of(b: u8) -> Option<Mark>
    ensures { result ≡ mark_of b }
{
    match b {
        0..=1 => Some(Mark::Fixed(b)),
        2 => Some(Mark::Remaining),
        3 => Some(Mark::Eliminated),
        _ => None,
    }
}
