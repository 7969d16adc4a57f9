// `BASE SEALED LENGTH;PLACE VALUE PLACE VALUE ...;`: a valid block, damaged.
use lists::{Fields, hex, number};

// A number of 64 bits. The six greatest are none in a list.
pub fn word(fields: &mut Fields, end: u8) -> Option<usize> {
    fields
        .number::<usize>(end)
        .filter(|v| *v < 18_446_744_073_709_551_610)
}

// The base of this number, into the front of the block. Each line of the bases is 1,024 digits and a newline: no two digits more.
fn put_base(bases: &[u8], base: usize, block: &mut [u8]) -> Option<()> {
    let line = bases.get(base.checked_mul(1025)?..)?;
    hex(line.get(..1024)?, block)?;
    let is_longer = line
        .get(1024..1026)
        .is_some_and(|pair| hex(pair, &mut [0]).is_some());
    (!is_longer).then_some(())
}

// Each value at its place.
fn put_edits(field: &[u8], block: &mut [u8]) -> Option<()> {
    if field.is_empty() {
        return Some(());
    }
    let mut place: Option<usize> = None;
    for piece in field.split(|b| *b == b' ') {
        if let Some(at) = place.take() {
            *block.get_mut(at)? = number(piece)?;
        } else {
            place = Some(number(piece)?);
        }
    }
    place.is_none().then_some(())
}

// The check of the first 508 bytes, made here and not by the library.
fn seal(block: &mut [u8; 1024]) {
    let mut one = 1u16;
    let mut two = 0u16;
    for b in &block[..508] {
        one = one.wrapping_add(u16::from(*b));
        two = two.wrapping_add(one);
    }
    block[508..510].copy_from_slice(&one.to_le_bytes());
    block[510..512].copy_from_slice(&two.to_le_bytes());
}

// Into the lent block, which is zero behind the base; and how much of it is asked for.
pub fn damage(fields: &mut Fields, bases: &[u8], block: &mut [u8; 1024]) -> Option<usize> {
    let base = fields.number::<usize>(b' ')?;
    let sealed = word(fields, b' ')?;
    let length = word(fields, b';')?;
    put_base(bases, base, block)?;
    put_edits(fields.until(b';')?, &mut block[..512])?;
    if sealed == 1 {
        seal(block);
    }
    Some(length)
}
