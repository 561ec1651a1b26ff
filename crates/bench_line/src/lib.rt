// The bench: two ends, every frame ever sent, and lines that say what happens next.
#![tactic(auto)]

ghost use Rattle.std.specs.Prelude.{◌≡◌};
ghost use Rattle.octets.specs.Refusal.{told};
ghost use Rattle.call_spec.specs.Claim.{lent};
ghost use Rattle.bench_spec.specs.Bench.{Bench, bench_of, numbered, end_number, end_of};
ghost use Rattle.bench_line.specs.Performed.{LinePerformed, asks_lent};
ghost use Rattle.bench_line.specs.Internal.{order_in};

use bench_call::BenchAnswer;
use bench_checks::LentBench;
use bench_spec::{End, Order};
use octets::Refusal;

// What a line orders, whose octets are s. One that 1 or 2 refuses orders nothing, by their number.
// A function and not a closure for and_then: what such a closure promises is out of the reach of the proof of its caller.
#[tactic(auto, using(bench_spec::proofs::Numbers::by_number), unfolding(crate::specs::Internal::order_in, octets::specs::Test::and_then))]
fn order_in(read: Result<usize, Refusal>, s: &[u8]) -> Result<Order, u8>
    ensures { numbered result ≡ order_in (told read) s.now }
{
    read.map_err(Refusal::number)?;
    bench_order::order_of(s).map_err(Refusal::number)
}

// Plays a line, which is given without its line feed, on the bench with the records a and b and their pages, the log and so many places of it in
// use. A frame that is sent goes to the start of out and to the next place of the log, a block that is collected to the start of up.
// What is lent stays apart here and in the calls below that store: C lends each by itself (dock_bench), and LinePerformed says of each what is left in it.
pub fn perform(
    a: &mut [u8],
    b: &mut [u8],
    a_page: &mut [u8],
    b_page: &mut [u8],
    log: &mut [u8],
    count: usize,
    line: &[u8],
    out: &mut [u8],
    up: &mut [u8],
) -> BenchAnswer
    ensures answers { (let w : Bench = bench_of (lent a.old a_page.old) (lent b.old b_page.old) log.old count in
        LinePerformed w line.now out.old up.old
        (lent a.new a_page.new) (lent b.new b_page.new) log.new out.new up.new result) }
    ensures end { end_number result.end ≡ end_of (asks_lent (bench_of (lent a.old a_page.old) (lent b.old b_page.old) log.old count) line.now out.old up.old) }
{
    let mut s = [0u8; octets::LONGEST_FRAME];
    let read = hexadecimal::read(line, &mut s);
    let octets = &s[..read.unwrap_or(0)];
    let order = order_in(read, octets);
    let bench = LentBench::new(a, b, a_page, b_page, log, count);
    let ready = bench_checks::ready(
        bench_order::end_restarted(order),
        bench,
        out.len(),
        up.len(),
    );
    let decided = bench_order::decide(ready.map_err(Refusal::number), order, log, count);
    let end = bench_order::end_for(decided, log);
    match end {
        End::A => bench_call::carry_out(end, decided, a, a_page, octets, log, count, out, up),
        End::B => bench_call::carry_out(end, decided, b, b_page, octets, log, count, out, up),
    }
}
