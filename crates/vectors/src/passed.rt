// passed.txt: a record is written.
use crate::{answers, damage};
use lists::{Fields, hex, list};
use rules::{Record, Refusal, Step};

// Six bytes a step, in the block's order.
pub fn steps_of(bytes: &[u8]) -> [Step; 64] {
    let mut steps = [Step::default(); 64];
    let (chunks, _) = bytes.as_chunks::<6>();
    for (step, [decision, degree, first, second, third, choices]) in steps.iter_mut().zip(chunks) {
        *step = Step {
            decision: *decision,
            degree: *degree,
            first: *first,
            second: *second,
            third: *third,
            choices: *choices,
        };
    }
    steps
}

// A LIST of exactly so many bytes.
fn bytes_of<const N: usize>(field: &[u8]) -> Option<[u8; N]> {
    let mut room = [0u8; N];
    list(field, &mut room)?.try_into().ok()
}

// None where there is no memory so long as is asked.
fn answered(record: Record, block: Option<&mut [u8]>) -> Option<Result<(), Refusal>> {
    Some(record::write::write_record(record, block?))
}

// What is not told to be written stays as it was.
pub fn agrees(line: &[u8]) -> Option<bool> {
    let mut fields = Fields { rest: line };
    let length = damage::word(&mut fields, b' ')?;
    let record = Record {
        n: fields.number(b' ')?,
        count: fields.number(b' ')?,
        constant: fields.number(b';')?,
        states: bytes_of(fields.until(b';')?)?,
        steps: steps_of(&bytes_of::<384>(fields.until(b';')?)?),
    };
    let mut block = [170u8; 1024];
    let mut told = [170u8; 1024];
    let answer = answered(record, block.get_mut(..length));
    let is_answered = fields.number::<u8>(b';')? == answers::number_if(&answer);
    hex(fields.until(b'\n')?, &mut told)?;
    Some(is_answered && told == block && fields.rest.is_empty())
}
