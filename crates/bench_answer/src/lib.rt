// The bench asked by lines of text: a line and its answer.
#![tactic(auto)]

ghost use Rattle.std.specs.Prelude.{◌≡◌, ◌++◌, ◌≤◌, length, take};
ghost use Rattle.octets.specs.Sizes.{longest_frame, longest_block};
ghost use Rattle.answer_text.specs.Text.{text_of, StartsWith};
ghost use Rattle.call_spec.specs.Claim.{lent};
ghost use Rattle.bench_spec.specs.Bench.{Bench, bench_of, end_number};
ghost use Rattle.bench_call.specs.Answer.{bench_block_at};
ghost use Rattle.bench_answer.specs.Text.{lead, answer_room, bench_asks, BenchAnswered};

use bench_call::BenchAnswer;

// Room for an answer: what one end's answer needs, and two characters before it.
pub const ANSWER_ROOM: usize = answer_text::ANSWER_ROOM + 2;

// The digits of 50, which stands before an answer about A.
const DIGIT_FIVE: u8 = 53;

const DIGIT_ZERO: u8 = 48;

// The block handed up, of n octets: in the log from at on; one collected, whose at is 0, at the start of up.
#[tactic(auto, using(octets::proofs::Test::picks), unfolding(bench_call::specs::Answer::bench_block_at))]
fn block_of<'a>(at: usize, n: usize, log: &'a [u8], up: &'a [u8]) -> &'a [u8]
    requires { length (bench_block_at at n log.now up.now) ≡ n }
    ensures { result.now ≡ bench_block_at at n log.now up.now }
{
    if n == 0 {
        return &up[..0];
    }
    if at == 0 {
        return &up[..n];
    }
    &log[at..at + n]
}

// Writes the text of an answer to the start of out: 50 or 51, then the text as at one end.
fn tell(r: BenchAnswer, block: &[u8], frame: &[u8], out: &mut [u8]) -> usize
    requires { (answer_room ≤ length out.old) × ((length block.now ≤ longest_block) × ((r.sent ≤ longest_frame) × (r.sent ≤ length frame.now))) }
    ensures { StartsWith (lead (end_number r.end) ++ text_of r.status block.now (take r.sent frame.now)) out.old out.new result }
{
    out[0] = DIGIT_FIVE;
    out[1] = DIGIT_ZERO + r.end.number();
    let told = r.status;
    let sent = r.sent;
    let n = answer_text::write_text(told, block, &frame[..sent], &mut out[2..]);
    n + 2
}

// Answers a line, which is given without its line feed, on the bench with the records a and b and their pages, the log and so many places of it in
// use: the answer line and, if a frame is sent, its line go to the start of out, which has room for ANSWER_ROOM characters. The result is how many
// it wrote.
pub fn answer(
    a: &mut [u8],
    b: &mut [u8],
    a_page: &mut [u8],
    b_page: &mut [u8],
    log: &mut [u8],
    count: &mut usize,
    line: &[u8],
    out: &mut [u8],
) -> usize
    requires { answer_room ≤ length out.old }
    ensures { (let w : Bench = bench_of (lent a.old a_page.old) (lent b.old b_page.old) log.old count.old in
        BenchAnswered w (bench_asks w line.now) out.old (bench_of (lent a.new a_page.new) (lent b.new b_page.new) log.new count.new) out.new result) }
{
    let mut frame = [0u8; octets::LONGEST_FRAME];
    let mut up = [0u8; octets::LONGEST_BLOCK];
    let r = bench_line::perform(a, b, a_page, b_page, log, *count, line, &mut frame, &mut up);
    *count = r.count;
    tell(r, block_of(r.at, r.block, log, &up), &frame, out)
}
