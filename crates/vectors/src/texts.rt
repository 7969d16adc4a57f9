// texts.txt: `PIECES;OUTPUT`.
use lists::{Fields, text};

// Is this what came? `;` stands for a newline.
pub fn is_told(line: &[u8], came: &[u8]) -> bool {
    let told = |b: u8| if b == b'\n' { b';' } else { b };
    line.len() == came.len() && line.iter().zip(came).all(|(l, c)| *l == told(*c))
}

// Is the line what the program writes for a text?
pub fn is_replied(line: &[u8], text: &[u8]) -> bool {
    let mut out = reply::buffer();
    let m = reply::reply(text, &mut out);
    is_told(line, &out[..m])
}

pub fn agrees(line: &[u8]) -> Option<bool> {
    let mut room = [0u8; 32800];
    let mut fields = Fields { rest: line };
    let text = text(fields.until(b';')?, &mut room)?;
    Some(is_replied(fields.until(b'\n')?, text) && fields.rest.is_empty())
}
