// objectives.txt and budgets.txt: an objective as the program reads it, what is written, and the counts.
use crate::{counts, texts};
use lists::Fields;

// A line, with newlines for its `;`.
fn with_newlines<'a>(line: &[u8], room: &'a mut [u8]) -> Option<&'a [u8]> {
    let text = room.get_mut(..line.len())?;
    for (out, b) in text.iter_mut().zip(line) {
        *out = if *b == b';' { b'\n' } else { *b };
    }
    Some(text)
}

pub fn agrees(entry: &[u8]) -> Option<bool> {
    let mut room = [0u8; 32800];
    let mut fields = Fields { rest: entry };
    let text = with_newlines(fields.until(b'\n')?, &mut room)?;
    let is_replied = texts::is_replied(fields.until(b'\n')?, text);
    let read = read_text::parse(text).ok()?;
    let reduced = reduce::reduce(read.objective(), &mut [0; 64], &mut [0; 4096]);
    let are_counted = counts::are_told(fields.until(b'\n')?, &reduced)?;
    Some(is_replied && are_counted && fields.rest.is_empty())
}
