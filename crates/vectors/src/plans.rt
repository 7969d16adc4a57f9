// back.txt: `KIND DAMAGE;LENT;OUT;ANSWER;WRITTEN`, an answer grown back or a plan projected.
use crate::{answers, damage, passed};
use lists::{Fields, list};
use rules::{Record, Refusal};

#[derive(Clone, Copy)]
enum Kind {
    GrowBackBlock,
    ProjectBlock,
    GrowBack,
    Project,
}

impl TryFrom<u8> for Kind {
    type Error = ();

    fn try_from(number: u8) -> Result<Kind, ()> {
        match number {
            0 => Ok(Kind::GrowBackBlock),
            1 => Ok(Kind::ProjectBlock),
            2 => Ok(Kind::GrowBack),
            3 => Ok(Kind::Project),
            _ => Err(()),
        }
    }
}

// The fields of a block as they stand; what it lacks is zero.
fn record_of(block: &[u8]) -> Record {
    let mut whole = [0u8; 512];
    for (to, from) in whole.iter_mut().zip(block) {
        *to = *from;
    }
    Record {
        n: whole[1],
        count: whole[2],
        constant: i64::from_le_bytes(whole[4..12].try_into().unwrap()),
        states: whole[12..76].try_into().unwrap(),
        steps: passed::steps_of(&whole[76..460]),
    }
}

// Kept: a match, since the kind is read from each line.
fn called(kind: Kind, block: &[u8], lent: &[u8], out: &mut [u8]) -> Result<(), Refusal> {
    match kind {
        Kind::GrowBackBlock => back::grow::grow_back_block(block, lent, out),
        Kind::ProjectBlock => back::project::project_block(block, lent, out),
        Kind::GrowBack => back::grow::grow_back(record_of(block), lent, out),
        Kind::Project => back::project::project(record_of(block), lent, out),
    }
}

// None where there is no such kind, or no memory so long as is asked.
fn answered(
    number: usize,
    block: Option<&[u8]>,
    lent: &[u8],
    out: Option<&mut [u8]>,
) -> Option<Result<(), Refusal>> {
    let kind = Kind::try_from(u8::try_from(number).ok()?).ok()?;
    Some(called(kind, block?, lent, out?))
}

// What is not told to be written stays as it was.
pub fn agrees(line: &[u8], bases: &[u8]) -> Option<bool> {
    let mut block = [0u8; 1024];
    let mut lent = [0u8; 128];
    let mut out = [170u8; 128];
    let mut told = [170u8; 128];
    let mut fields = Fields { rest: line };
    let kind = damage::word(&mut fields, b' ')?;
    let length = damage::damage(&mut fields, bases, &mut block)?;
    let lent = list(fields.until(b';')?, &mut lent)?;
    let asked = damage::word(&mut fields, b';')?;
    let answer = answered(kind, block.get(..length), lent, out.get_mut(..asked));
    let is_answered = fields.number::<u8>(b';')? == answers::number_if(&answer);
    list(fields.until(b'\n')?, &mut told)?;
    Some(is_answered && told == out && fields.rest.is_empty())
}
