// Runs the stored lists and writes how many entries of each ran and agreed.
#![tactic(auto)]

mod answers; // the number of an answer
mod calls; // refusals.txt, crowded.txt
mod counts; // a line of COUNTS
mod damage; // a block, damaged
mod objectives; // objectives.txt, budgets.txt
mod passed; // passed.txt
mod plans; // back.txt
mod records; // records.txt
mod tally; // the entries of a list
mod texts; // texts.txt

use std::fs::File;
use std::io;
use std::io::{Seek, SeekFrom};
use std::rt::Files;
use tally::Tally;

// One list, from its file. The parts are more than any list has.
fn run<Agrees: Fn(&[u8]) -> Option<bool>>(
    rt: &impl Files,
    path: &str,
    lines: usize,
    agrees: Agrees,
) -> io::Result<Tally>
    requires { Agrees.IsAlwaysCallable agrees }
{
    let mut file = File::open(rt, path)?;
    let mut text = [0u8; 65536];
    let mut tally = Tally::default();
    let mut place = 0u64;
    for _ in 0..1000 {
        file.seek(SeekFrom::Start(place))?;
        let n = input::read_full(&mut file, &mut text)?;
        let used = tally.run(&text[..n], lines, &agrees);
        if used == 0 {
            break;
        }
        place = place.wrapping_add(used as u64);
    }
    Ok(tally)
}

// One list, run and its verdict written.
fn judge<Agrees: Fn(&[u8]) -> Option<bool>>(
    rt: &(impl Files + Print),
    path: &str,
    lines: usize,
    agrees: Agrees,
) -> io::Result<()>
    requires { Agrees.IsAlwaysCallable agrees }
{
    let name = path.strip_suffix(".txt").unwrap_or(path);
    let tally = run(rt, path, lines, agrees)?;
    println!(rt; "{name} {tally}")
}

fn run_all(rt: &(impl Files + Print), bases: &[u8]) -> io::Result<()> {
    judge(rt, "records.txt", 1, |entry| records::agrees(entry, bases))?;
    judge(rt, "passed.txt", 1, passed::agrees)?;
    judge(rt, "back.txt", 1, |entry| plans::agrees(entry, bases))?;
    judge(rt, "texts.txt", 1, texts::agrees)?;
    judge(rt, "refusals.txt", 1, calls::refuses)?;
    judge(rt, "objectives.txt", 3, objectives::agrees)?;
    judge(rt, "crowded.txt", 3, calls::reduces)?;
    judge(rt, "budgets.txt", 3, objectives::agrees)
}

fn main(rt: HostRuntime) -> io::Result<()> {
    let mut bases = [0u8; 16384];
    let mut file = File::open(&rt, "bases.txt")?;
    let n = input::read_full(&mut file, &mut bases)?;
    run_all(&rt, &bases[..n])
}
