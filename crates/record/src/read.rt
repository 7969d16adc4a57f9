// A record is read from a block.
ghost use Rattle.std.specs.Prelude.{◌≡◌, ◌+◌, ◌*◌, ◌≤◌, map, ◌==◌, slice_index};
ghost use Rattle.whole.specs.Words.{upto};
ghost use Rattle.rules.specs.Record.{edition, step_in, record_in, zeros_in};
ghost use Rattle.record.specs.Promises.{Reads};

use crate::sums;
use refusal::row;
use rules::{Record, Refusal, Step};

// "0: edition, 3."
fn is_edition(block: &[u8; 512]) -> bool
    ensures { result ≡ (slice_index block.now 0 == edition) }
{
    block[0] == 3
}

// "decision, degree d, three neighbours, choices": the layout of a step, read.
fn step_in(block: &[u8; 512], at: usize) -> Step
    requires { at + 6 ≤ 512 }
    ensures { result ≡ step_in block.now at }
{
    Step {
        decision: block[at],
        degree: block[at + 1],
        first: block[at + 2],
        second: block[at + 3],
        third: block[at + 4],
        choices: block[at + 5],
    }
}

fn steps_in(block: &[u8; 512]) -> [Step; 64]
    ensures { result ≡ map (λ k. step_in block.now (76 + 6 * k)) (upto 64) }
{
    let mut steps = [Step::default(); 64];
    for (k, step) in steps.iter_mut().enumerate() {
        *step = step_in(block, 76 + 6 * k);
    }
    steps
}

fn record_in(block: &[u8; 512]) -> Record
    ensures { result ≡ record_in block.now }
{
    let mut constant = [0; 8];
    constant.copy_from_slice(&block[4..12]);
    let mut states = [0; 64];
    states.copy_from_slice(&block[12..76]);
    Record {
        n: block[1],
        count: block[2],
        constant: i64::from_le_bytes(constant),
        states,
        steps: steps_in(block),
    }
}

// The bytes that no field holds.
fn zeros_in(block: &[u8; 512]) -> bool
    ensures { result ≡ zeros_in block.now }
{
    block[3] == 0 && broken::zero_bytes(&block[460..508])
}

// Refuses with 9, 10, 11, 12.
pub fn read_record(block: &[u8]) -> Result<Record, Refusal>
    ensures { Reads block.now result }
{
    let Ok(block) = <&[u8; 512]>::try_from(block) else {
        return Err(Refusal::BlockLength);
    };
    row(!sums::is_right(block), Refusal::Check)?;
    row(!is_edition(block), Refusal::Edition)?;
    row(!zeros_in(block), Refusal::Body)?;
    let record = record_in(block);
    row(broken::is_broken(record), Refusal::Body)?;
    Ok(record)
}
