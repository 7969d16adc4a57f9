// Readers of the program's text: each takes what is left of it, and gives what it read and what is then left.
#![tactic(auto)]

mod field;
mod text;

ghost use Rattle.std.specs.Prelude.{◌≡◌, ◌≤◌, [], length};
ghost use Rattle.rules.specs.ReadText.{turned, weight, line, head, terms, after_weights, input};
ghost use Rattle.decimal.specs.Seen.{seen};
ghost use Rattle.read_text.specs.Seen.{seen_line, head_of, terms_in, seen_lists, seen_input};

pub use field::Field;
use rules::Refusal;
pub use text::{Head, Terms, Text};

// A line of numbers, one for each place of `out`.
pub fn read_line<'a, T: Field>(text: &'a [u8], out: &mut [T]) -> Option<&'a [u8]>
    ensures { seen_line out.new result ≡ line T.one (length out.old) text.now }
{
    if out.is_empty() {
        return text.strip_prefix(b"\n");
    }
    let last = out.len() - 1;
    let mut rest = text;
    for (i, place) in out.iter_mut().enumerate() {
        let end = if i == last { b'\n' } else { b' ' };
        let (x, after) = T::read(rest, end)?;
        *place = x;
        rest = after;
    }
    Some(rest)
}

// The first line.
#[tactic(auto, unfolding(rules::specs::ReadText::head))]
pub fn read_head(text: &[u8]) -> Option<(Head, &[u8])>
    ensures { turned head_of (seen result) ≡ head text.now }
{
    let (n, rest) = u32::read(text, b' ')?;
    let (switches, rest) = u32::read(rest, b' ')?;
    let (budget, rest) = u32::read(rest, b' ')?;
    let (terms, rest) = u32::read(rest, b'\n')?;
    Some((
        Head {
            n,
            switches,
            budget,
            terms,
        },
        rest,
    ))
}

// The lines of k terms.
pub fn read_terms(k: usize, text: &[u8]) -> Option<(Terms, &[u8])>
    requires { k ≤ 1024 }
    ensures { turned (terms_in k) (seen result) ≡ terms [] [] [] k text.now }
{
    let mut read = Terms {
        firsts: [0; 1024],
        seconds: [0; 1024],
        weights: [0; 1024],
    };
    let mut rest = text;
    for m in 0..k {
        let (i, after) = u32::read(rest, b' ')?;
        let (j, after) = u32::read(after, b' ')?;
        let (w, after) = i64::read(after, b'\n')?;
        read.firsts[m] = i;
        read.seconds[m] = j;
        read.weights[m] = w;
        rest = after;
    }
    Some((read, rest))
}

// The lines after the first.
#[tactic(auto, unfolding(rules::specs::ReadText::after_weights, rules::specs::ReadText::after_fixings, rules::specs::ReadText::last))]
fn read_lists(head: Head, text: &[u8]) -> Option<Text>
    requires { (head.n ≤ 64) × (head.terms ≤ 1024) }
    ensures { seen_lists result ≡ after_weights (head_of head) (line weight head.n text.now) }
{
    let n = head.n as usize;
    let mut weights = [0i64; 64];
    let mut fixings = [0u8; 64];
    let rest = read_line(text, &mut weights[..n])?;
    let rest = read_line(rest, &mut fixings[..n])?;
    let (terms, rest) = read_terms(head.terms as usize, rest)?;
    rest.is_empty().then_some(Text {
        head,
        weights,
        fixings,
        terms,
    })
}

// The objective of a text, or its refusal.
#[tactic(auto, unfolding(rules::specs::ReadText::input, rules::specs::ReadText::after_head))]
pub fn parse(text: &[u8]) -> Result<Text, Refusal>
    ensures { seen_input result ≡ input text.now }
{
    if text.len() > 32768 {
        return Err(Refusal::Text);
    }
    let (head, rest) = read_head(text).ok_or(Refusal::Text)?;
    if head.n > 64 {
        return Err(Refusal::Decisions);
    }
    if head.terms > 1024 {
        return Err(Refusal::Text);
    }
    read_lists(head, rest).ok_or(Refusal::Text)
}
