// A line, field by field from its front.
ghost use Rattle.std.specs.Prelude.{◌≡◌, ℕ, List, ◌∷◌, ◌++◌, Contains, MatchOption};
ghost use Rattle.lists.specs.Number.{Reads};

use std::num::ParseIntError;
use std::str;
use std::str::FromStr;

// The number that a whole field writes. A list writes no plus, which `parse` would read.
pub fn number<T: FromStr<Err = ParseIntError>>(field: &[u8]) -> Option<T>
    ensures { Reads T.from_str_gives field.now result }
{
    if field.starts_with(b"+") {
        return None;
    }
    str::from_utf8(field).ok()?.parse().ok()
}

#[derive(Clone, Copy)]
pub struct Fields<'a> {
    pub rest: &'a [u8],
}

impl<'a> Fields<'a> {
    // The bytes before the next `end`, which is passed too.
    pub fn until(&mut self, end: u8) -> Option<&'a [u8]>
        ensures { MatchOption result ((self.new.rest.now ≡ self.old.rest.now) × ¬ (Contains self.old.rest.now end)) (λ field. (self.old.rest.now ≡ field.now ++ end ∷ self.new.rest.now) × ¬ (Contains field.now end)) }
    {
        let rest = self.rest;
        let n = rest.iter().position(|b| *b == end)?;
        self.rest = &rest[n + 1..];
        Some(&rest[..n])
    }

    // The number before the next `end`.
    pub fn number<T: FromStr<Err = ParseIntError>>(&mut self, end: u8) -> Option<T>
        ensures { Contains self.old.rest.now end → (field : List ℕ) × (self.old.rest.now ≡ field ++ end ∷ self.new.rest.now) × ¬ (Contains field end) × Reads T.from_str_gives field result }
    {
        number(self.until(end)?)
    }
}
