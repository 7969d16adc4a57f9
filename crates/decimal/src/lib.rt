// Numbers as decimal text: read from the front of a slice, and written on a page.
#![tactic(auto)]

mod page;
mod shown;

ghost use Rattle.std.specs.Prelude.{◌≡◌, ◌≤◌, IfSome};
ghost use Rattle.rules.specs.ReadText.{number, weight};
ghost use Rattle.decimal.specs.Seen.{seen};

pub use page::Page;
pub use shown::Shown;

// The number at the front of the text, of any count of digits and at most `max`, with the byte `end` after it; and the text behind that.
pub fn read_number(text: &[u8], max: u64, end: u8) -> Option<(u64, &[u8])>
    ensures reads { seen result ≡ number max end text.now }
    ensures small { IfSome result (λ r. r.0 ≤ max) }
{
    let mut v = 0u64;
    for (i, b) in text.iter().enumerate() {
        if b.is_ascii_digit() {
            v = v.checked_mul(10)?.checked_add(u64::from(*b - b'0'))?;
        } else if i > 0 && v <= max && *b == end {
            return Some((v, &text[i + 1..]));
        } else {
            return None;
        }
    }
    None
}

// The same of a signed number of 64 bits; a minus may stand before it.
pub fn read_signed(text: &[u8], end: u8) -> Option<(i64, &[u8])>
    ensures { seen result ≡ weight end text.now }
{
    if let Some(rest) = text.strip_prefix(b"-") {
        let (v, rest) = read_number(rest, i64::MIN.unsigned_abs(), end)?;
        Some((v.wrapping_neg().cast_signed(), rest))
    } else {
        let (v, rest) = read_number(text, i64::MAX.unsigned_abs(), end)?;
        Some((v.cast_signed(), rest))
    }
}
