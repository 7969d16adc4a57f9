// The entries of a list, one after the other.
ghost use Rattle.std.specs.Prelude.{◌<◌, length, IfSome};

use std::fmt;

// How many ran, how many agreed, and the first that does not.
#[derive(Clone, Copy, Default)]
pub struct Tally {
    ran: u64,
    agreed: u64,
    first: Option<u64>,
}

// The next entry, of so many lines, where it is all there; and what stands behind it.
fn split_entry(text: &[u8], lines: usize) -> Option<(&[u8], &[u8])>
    ensures { IfSome result (λ parts. length parts.1.now < length text.now) }
{
    let mut newlines = text.iter().enumerate().filter(|(_, b)| **b == b'\n');
    let (last, _) = newlines.nth(lines.checked_sub(1)?)?;
    text.split_at_checked(last.checked_add(1)?)
}

impl Tally {
    fn count(&mut self, agrees: bool) {
        self.ran = self.ran.wrapping_add(1);
        if agrees {
            self.agreed = self.agreed.wrapping_add(1);
        } else {
            self.first = self.first.or(Some(self.ran));
        }
    }

    // The entries that are all there: how many bytes they take. A text that holds none and is not empty counts as one that does not agree.
    pub fn run<Agrees: Fn(&[u8]) -> Option<bool>>(
        &mut self,
        text: &[u8],
        lines: usize,
        agrees: &Agrees,
    ) -> usize
        requires { Agrees.IsAlwaysCallable agrees.now }
    {
        let mut rest = text;
        while let Some((entry, others)) = split_entry(rest, lines) {
            self.count(agrees(entry) == Some(true));
            rest = others;
        }
        if rest.len() == text.len() && !text.is_empty() {
            self.count(false);
        }
        text.len() - rest.len()
    }
}

impl fmt::Display for Tally {
    fn fmt<W: fmt::Write>(&self, f: &mut fmt::Formatter<W>) -> fmt::Result {
        let ran = self.ran;
        let agreed = self.agreed;
        write!(f, "ran {ran} agreed {agreed}")?;
        if let Some(first) = self.first {
            write!(f, " first that does not {first}")?;
        }
        Ok(())
    }
}
