// The rows of the table for an answer or a plan.
ghost use Rattle.std.specs.Prelude.{◌≡◌};
ghost use Rattle.rules.specs.Refuse.{first_row, bytes_rows};
ghost use Rattle.rules.specs.Numbers.{answer_of};

use refusal::row;
use rules::{Record, Refusal};

// Rows 7 and 8, for bytes that have to be `long` long.
pub fn bytes_refusal(record: Record, long: usize, bytes: &[u8], out: usize) -> Result<(), Refusal>
    ensures { answer_of result ≡ first_row (bytes_rows «record» long bytes.now out) }
{
    let lengths = bytes.len() != long || out != record.n as usize;
    let over = bytes.iter().any(|b| *b > 1);
    row(lengths, Refusal::AnswerLength)?;
    row(over, Refusal::AnswerByte)
}
