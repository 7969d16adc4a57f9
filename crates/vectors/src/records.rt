// records.txt: a damaged block is read.
use crate::{answers, damage};
use lists::Fields;
use rules::Record;

// A block that reads is written back to the same bytes.
fn is_written_back(record: Record, block: &[u8]) -> bool {
    let mut again = [170u8; 512];
    record::write::write_record(record, &mut again).is_ok() && again.as_slice() == block
}

pub fn agrees(line: &[u8], bases: &[u8]) -> Option<bool> {
    let mut room = [0u8; 1024];
    let mut fields = Fields { rest: line };
    let length = damage::damage(&mut fields, bases, &mut room)?;
    let block = room.get(..length)?;
    let read = record::read::read_record(block);
    let is_answered = fields.number::<u8>(b'\n')? == answers::number_of(&read);
    let is_same = match read {
        Ok(record) => is_written_back(record, block),
        Err(_) => true,
    };
    Some(is_answered && is_same && fields.rest.is_empty())
}
