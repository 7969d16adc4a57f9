// A record is written as a block.
ghost use Rattle.std.specs.Prelude.{◌≡◌};
ghost use Rattle.std.proofs.lemmas.List.Edits.{sets};
ghost use Rattle.rules.specs.Record.{step_bytes, steps_bytes, body, block_of};
ghost use Rattle.rules.specs.Numbers.{answer_of};
ghost use Rattle.record.specs.Promises.{Writes};

use crate::sums;
use refusal::row;
use rules::{Record, Refusal, Step};

// "decision, degree d, three neighbours, choices": the layout of a step, written.
fn step_bytes(s: Step) -> [u8; 6]
    ensures { result ≡ step_bytes s }
{
    [s.decision, s.degree, s.first, s.second, s.third, s.choices]
}

fn put_steps(body: &mut [u8; 508], steps: [Step; 64])
    ensures { body.new ≡ sets body.old 76 (steps_bytes steps) }
{
    for (k, s) in steps.iter().enumerate() {
        let at = 76 + 6 * k;
        body[at..at + 6].copy_from_slice(&step_bytes(*s));
    }
}

// "0: edition, 3. 1: n. 2: number of steps. 3: zero. 4–11: constant .. 12–75: a state for each decision .. 76–459: 64 steps .. 460–507: zero."
fn body_of(record: Record) -> [u8; 508]
    ensures { result ≡ body «record» }
{
    let mut body = [0; 508];
    body[0] = 3;
    body[1] = record.n;
    body[2] = record.count;
    body[4..12].copy_from_slice(&record.constant.to_le_bytes());
    body[12..76].copy_from_slice(&record.states);
    put_steps(&mut body, record.steps);
    body
}

// The whole block: its body and the check.
pub fn block_of(record: Record) -> [u8; 512]
    ensures { result ≡ block_of «record» }
{
    let body = body_of(record);
    let sums = sums::sums_of(&body);
    let [a, b] = sums.s1.to_le_bytes();
    let [c, d] = sums.s2.to_le_bytes();
    let mut block = [0; 512];
    block[..508].copy_from_slice(&body);
    block[508..512].copy_from_slice(&[a, b, c, d]);
    block
}

// The block, or a refusal and the output as it was.
pub fn write_record(record: Record, block: &mut [u8]) -> Result<(), Refusal>
    ensures { Writes «record» block.old (answer_of result) block.new }
{
    row(block.len() != 512, Refusal::BlockLength)?;
    row(broken::is_broken(record), Refusal::Body)?;
    block.copy_from_slice(&block_of(record));
    Ok(())
}
