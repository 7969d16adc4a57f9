// A field, into lent memory. Each answers the front of that memory which the field fills.
ghost use Rattle.std.specs.Prelude.{◌<◌, IfSome};

use crate::fields::{Fields, number};
use std::num::{ParseIntError, TryFromIntError};
use std::str::FromStr;

// Pieces with a space between. `put` fills the front of what is left, and says how much.
fn pieces<'a, T, Put: Fn(&[u8], &mut [T]) -> Option<usize>>(
    field: &[u8],
    room: &'a mut [T],
    put: Put,
) -> Option<&'a [T]>
    requires { Put.IsAlwaysCallable put }
{
    let mut n = 0usize;
    if !field.is_empty() {
        for piece in field.split(|b| *b == b' ') {
            n = n.checked_add(put(piece, room.get_mut(n..)?)?)?;
        }
    }
    room.get(..n)
}

// Numbers.
pub fn numbers<'a, T: FromStr<Err = ParseIntError> + Copy>(
    field: &[u8],
    room: &'a mut [T],
) -> Option<&'a [T]> {
    pieces(field, room, |piece, back| {
        *back.first_mut()? = number(piece)?;
        Some(1)
    })
}

// `COUNT*VALUE`: the value stands that often.
fn repeat<T: Copy>(count: usize, value: T, back: &mut [T]) -> Option<usize> {
    if count == 0 {
        return None;
    }
    for place in back.get_mut(..count)? {
        *place = value;
    }
    Some(count)
}

// A LIST: `COUNT*VALUE COUNT*VALUE ..`, each value that often.
pub fn list<'a, T: TryFrom<i64, Error = TryFromIntError> + Copy>(
    field: &[u8],
    room: &'a mut [T],
) -> Option<&'a [T]> {
    pieces(field, room, |piece, back| {
        let mut fields = Fields { rest: piece };
        let count = fields.number(b'*')?;
        let value = number::<i64>(fields.rest)?;
        repeat(count, T::try_from(value).ok()?, back)
    })
}

fn digit(b: u8) -> Option<u8>
    ensures { IfSome result (λ d. d < 16) }
{
    match b {
        b'0'..=b'9' => Some(b - b'0'),
        b'a'..=b'f' => Some(b - b'a' + 10),
        _ => None,
    }
}

// Bytes, each as two hex digits.
pub fn hex<'a>(digits: &[u8], room: &'a mut [u8]) -> Option<&'a [u8]> {
    let bytes = room.get_mut(..digits.len().div_ceil(2))?;
    for (byte, pair) in bytes.iter_mut().zip(digits.chunks(2)) {
        let [high, low] = pair else { return None };
        *byte = 16 * digit(*high)? + digit(*low)?;
    }
    Some(bytes)
}

// PIECES: `COUNT*HEX`, where the count is over 1 one byte that often, else a stretch of bytes.
pub fn text<'a>(field: &[u8], room: &'a mut [u8]) -> Option<&'a [u8]> {
    pieces(field, room, |piece, back| {
        let mut fields = Fields { rest: piece };
        let count = fields.number(b'*')?;
        if count == 1 {
            return Some(hex(fields.rest, back)?.len());
        }
        let mut byte = [0u8];
        let [byte] = hex(fields.rest, &mut byte)? else {
            return None
        };
        repeat(count, *byte, back)
    })
}
