// The bench line for C, on numbers and byte buffers alone; include/dock.h declares it.
#![tactic(auto)]

ghost use Rattle.std.specs.Prelude.{◌≡◌};
ghost use Rattle.call_spec.specs.Claim.{lent};
ghost use Rattle.bench_spec.specs.Bench.{Bench, bench_of, end_of};
ghost use Rattle.bench_line.specs.Performed.{LinePerformed, asks_lent};
ghost use Rattle.c_bench.specs.Answers.{bench_answer_in};

// Plays a bench line, which is given without its line feed. Answers the number; the count, the end that the answer is about, its state,
// notice, L and D, the length of the frame sent, and where in the log the block handed up stands (0 where it was collected, and stands at the
// start of up) and its length, go to the numbers lent.
#[unsafe(no_mangle)]
pub extern "C" fn dock_bench(
    a: &mut [u8],
    b: &mut [u8],
    a_page: &mut [u8],
    b_page: &mut [u8],
    log: &mut [u8],
    count: &mut usize,
    line: &[u8],
    out: &mut [u8],
    up: &mut [u8],
    end: &mut u8,
    state: &mut u8,
    notice: &mut u8,
    local: &mut u32,
    remote: &mut u32,
    sent: &mut usize,
    at: &mut usize,
    block: &mut usize,
) -> u8
    ensures answers { (let w : Bench = bench_of (lent a.old a_page.old) (lent b.old b_page.old) log.old count.old in
        LinePerformed w line.now out.old up.old
        (lent a.new a_page.new) (lent b.new b_page.new) log.new out.new up.new
        (bench_answer_in result end.new state.new notice.new local.new remote.new sent.new at.new block.new count.new)) }
    ensures end { end.new ≡ end_of (asks_lent (bench_of (lent a.old a_page.old) (lent b.old b_page.old) log.old count.old) line.now out.old up.old) }
{
    let r = bench_line::perform(a, b, a_page, b_page, log, *count, line, out, up);
    *count = r.count;
    *end = r.end.number();
    let told = r.status;
    *state = told.state;
    *notice = told.notice;
    *local = told.local;
    *remote = told.remote;
    *sent = r.sent;
    *at = r.at;
    *block = r.block;
    told.number
}
