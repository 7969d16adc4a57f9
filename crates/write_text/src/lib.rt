// Writers of what the program answers, each on a page from its place on.
#![tactic(auto)]

ghost use Rattle.std.specs.Prelude.{◌≡◌, true, ◌++◌, ◌+◌, ◌<◌, ◌≤◌, length, take, IfOk};
ghost use Rattle.rules.specs.Bytes.{bytes};
ghost use Rattle.rules.specs.WriteText.{listed, shown, edge_if, edge_line, edge_lines, choices_of, step_line, step_lines, written, written_refusal};
ghost use Rattle.rules.specs.Record.{played, steps_of};
ghost use Rattle.rules.specs.Back.{remaining_of};
ghost use Rattle.decimal.specs.Puts.{HasRoom, Put, AtFront};
ghost use Rattle.write_text.specs.Outcomes.{room, Fair, Short, outcome_in, opening, closing, replied};
ghost use Rattle.write_text.specs.WriteLaws.{listed_by, edge_size, step_size, closing_size};

use decimal::{Page, Shown};
use rules::{Record, Reduction, Refusal, Step};

// The bytes of `label`, and each number after one space.
fn put_list<T: Shown>(page: &mut Page, label: &[u8], xs: &[T])
    requires { HasRoom page.old (length label.now + length (listed_by T.text xs.now)) }
    ensures { Put page.old (label.now ++ listed_by T.text xs.now) page.new }
{
    page.put(label);
    for x in xs {
        page.put_number(b" ", *x);
    }
}

// The line of the edge of i and j.
fn put_edge(page: &mut Page, i: u64, j: u64, w: i64)
    requires { HasRoom page.old (edge_size i j w) }
    ensures { Put page.old (edge_if true i j w) page.new }
{
    page.put_number(b"edge ", i);
    page.put_number(b" ", j);
    page.put_number(b" ", w);
    page.put(b"\n");
}

// The line of the cell k, where it has one.
fn put_cell(page: &mut Page, k: usize, w: i64)
    requires { HasRoom page.old (length (edge_line k w)) × (k < 4096) }
    ensures { Put page.old (edge_line k w) page.new }
{
    let i = (k / 64) as u64;
    let j = (k % 64) as u64;
    if i < j && w != 0 {
        put_edge(page, i, j, w);
    }
}

fn put_edges(page: &mut Page, edges: &[i64])
    requires { HasRoom page.old (length (edge_lines 0 edges.now)) × (length edges.now ≡ 4096) }
    ensures { Put page.old (edge_lines 0 edges.now) page.new }
{
    for (k, w) in edges.iter().enumerate() {
        put_cell(page, k, *w);
    }
}

// The k lowest bits of m, bit 0 first.
fn put_choices(page: &mut Page, label: &[u8], k: u8, m: u8)
    requires { (k ≤ 8) × HasRoom page.old (length label.now + length (listed (choices_of k m))) }
    ensures { Put page.old (label.now ++ listed (choices_of k m)) page.new }
{
    page.put(label);
    for i in 0..k {
        page.put_number(b" ", m >> i & 1);
    }
}

fn put_step(page: &mut Page, s: Step)
    requires { (s.degree ≤ 3) × HasRoom page.old (step_size (played s)) }
    ensures { Put page.old (step_line (played s)) page.new }
{
    let near = [s.first, s.second, s.third];
    page.put_number(b"step ", s.decision);
    put_list(page, b" :", &near[..s.degree as usize]);
    put_choices(page, b" :", 1 << s.degree, s.choices);
    page.put(b"\n");
}

fn put_steps(page: &mut Page, record: &Record)
    requires { («record».now.count ≤ 64) × Short «record».now × HasRoom page.old (length (step_lines (steps_of «record».now))) }
    ensures { Put page.old (step_lines (steps_of «record».now)) page.new }
{
    for s in &record.steps[..record.count as usize] {
        put_step(page, *s);
    }
}

// The state of a decision that remains.
const REMAINING: u8 = 2;

// The decisions that remain, ascending; and how many they are.
fn put_remaining(page: &mut Page, states: &[u8]) -> usize
    requires { HasRoom page.old (10 + length (listed (remaining_of states.now))) × (length states.now ≤ 64) }
    ensures bytes { Put page.old (bytes "\nremaining" ++ listed (remaining_of states.now)) page.new }
    ensures count { result ≡ length (remaining_of states.now) }
{
    page.put(b"\nremaining");
    let mut count = 0;
    for (i, state) in states.iter().enumerate() {
        if *state == REMAINING {
            page.put_number(b" ", i as u8);
            count += 1;
        }
    }
    count
}

// From the constant to the line of weights.
fn put_opening(page: &mut Page, constant: i64, states: &[u8], linear: &[i64])
    requires { HasRoom page.old (length (opening constant (remaining_of states.now) (take (length (remaining_of states.now)) linear.now))) × (length states.now ≤ 64) × (length linear.now ≡ 64) }
    ensures { Put page.old (opening constant (remaining_of states.now) (take (length (remaining_of states.now)) linear.now)) page.new }
{
    page.put_number(b"constant ", constant);
    let count = put_remaining(page, states);
    put_list(page, b"\nlinear", &linear[..count]);
    page.put(b"\n");
}

// The last line.
fn put_closing(page: &mut Page, units: u32, complete: bool)
    requires { HasRoom page.old (closing_size units complete) }
    ensures { Put page.old (closing units complete) page.new }
{
    page.put_number(b"units ", u64::from(units));
    if complete {
        page.put(b" complete yes\n");
    } else {
        page.put(b" complete no\n");
    }
}

// What a reduction gives, with the two outputs that were lent to it. The place after, here and below.
pub fn put_result(out: &mut [u8], reduction: Reduction, linear: &[i64], edges: &[i64]) -> usize
    requires { (room ≤ length out.old) × Fair reduction linear.now edges.now }
    ensures { AtFront out.old (written (outcome_in reduction linear.now edges.now)) out.new result }
{
    let record = &reduction.record;
    let mut page = Page::new(out);
    put_opening(
        &mut page,
        record.constant,
        &record.states[..record.n as usize],
        linear,
    );
    put_edges(&mut page, edges);
    put_steps(&mut page, record);
    put_closing(&mut page, reduction.units, reduction.complete);
    page.at
}

pub fn put_refusal(out: &mut [u8], number: u8) -> usize
    requires { room ≤ length out.old }
    ensures { AtFront out.old (written_refusal number) out.new result }
{
    let mut page = Page::new(out);
    page.put_number(b"refused ", number);
    page.put(b"\n");
    page.at
}

// What a call of `reduce` answered.
pub fn put_reply(
    out: &mut [u8],
    reduction: Result<Reduction, Refusal>,
    linear: &[i64],
    edges: &[i64],
) -> usize
    requires { (room ≤ length out.old) × IfOk reduction (λ r. Fair r linear.now edges.now) }
    ensures { AtFront out.old (replied reduction linear.now edges.now) out.new result }
{
    match reduction {
        Ok(r) => put_result(out, r, linear, edges),
        Err(refusal) => put_refusal(out, u8::from(refusal)),
    }
}
