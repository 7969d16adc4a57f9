// What the program writes for a text.
#![tactic(auto)]

ghost use Rattle.std.specs.Prelude.{◌≡◌, ◌≤◌, length};
ghost use Rattle.rules.specs.Given.{of_lists};
ghost use Rattle.rules.specs.ReadText.{given};
ghost use Rattle.rules.specs.Program.{reply, program};
ghost use Rattle.decimal.specs.Puts.{AtFront};
ghost use Rattle.write_text.specs.Outcomes.{room};

use rules::Objective;

// Room for every reply.
pub fn buffer() -> [u8; 77824]
    ensures { length result ≡ room }
{
    [0; 77824]
}

// What an objective reduces to.
pub fn reply_to(o: Objective, out: &mut [u8]) -> usize
    requires { room ≤ length out.old }
    ensures { AtFront out.old (reply (given (of_lists o.entry))) out.new result }
{
    let mut linear = [0; 64];
    let mut edges = [0; 4096];
    let reduction = reduce::reduce(o, &mut linear, &mut edges);
    write_text::put_reply(out, reduction, &linear, &edges)
}

// The program's reply, at the front of the buffer; behind it the buffer stays as it is.
pub fn reply(text: &[u8], out: &mut [u8]) -> usize
    requires { room ≤ length out.old }
    ensures { AtFront out.old (program text.now) out.new result }
{
    match read_text::parse(text) {
        Ok(read) => reply_to(read.objective(), out),
        Err(refusal) => write_text::put_refusal(out, u8::from(refusal)),
    }
}
