// An order at one end of the bench: a call with question 14, the frame sent in the log, and what is told; a restart; a refusal.
#![tactic(auto)]

ghost use Rattle.std.specs.Prelude.{◌≡◌, ◌≤◌, ◌<◌, ◌≢◌, length, take};
ghost use Rattle.octets.specs.Sizes.{longest_frame};
ghost use Rattle.octets.specs.Test.{Outcome};
ghost use Rattle.frame.specs.Read.{cut_block};
ghost use Rattle.protocol.specs.Table.{Step};
ghost use Rattle.call_spec.specs.Calls.{rooms, page_after};
ghost use Rattle.call_spec.specs.Claim.{Lent, lent};
ghost use Rattle.link.specs.Lent.{Called, lent_call};
ghost use Rattle.bench_log.specs.Log.{places, log_size};
ghost use Rattle.bench_spec.specs.declared.Order.{Order};
ghost use Rattle.bench_spec.specs.Bench.{numbered, end_number};
ghost use Rattle.bench_call.specs.Answer.{start_of};
ghost use Rattle.bench_call.specs.Internal.{outcome_at, CallReady, has_place, noted, noted_count, block_place, answer_from, Does};
ghost use Rattle.bench_call.specs.Internal.{task_of, call_by, task_outcome, TaskReady, octets_in, Placed, Readable, order_outcome, OrderReady};

use bench_spec::{End, Order};
use call_spec::{Call, Status};
use frame::Header;
use lent_record::Answer;
use octets::Refusal;

// Question 14 of a plan: what sends a frame needs a place for it in the log.
#[tactic(auto, unfolding(crate::specs::Internal::has_place))]
pub fn has_place(reply: Option<Header>, count: usize) -> bool
    ensures { result ≡ has_place reply count }
{
    match reply {
        None => true,
        Some(_) => count < bench_log::PLACES,
    }
}

// A call of an end where 11, 12 and 15 are passed, with question 14 last, of its plan; the page's one store comes after it, and before the others.
fn call_end(
    call: Call,
    rec: &mut [u8],
    page: &mut [u8],
    s: &[u8],
    count: usize,
    out: &mut [u8],
    up: &mut [u8],
) -> Answer
    requires { CallReady (lent rec.old page.old) out.old up.old }
    ensures { (let o : Outcome Step = outcome_at (lent rec.old page.old) count (lent_call call s.now out.old up.old) in
        Called call o rec.old (cut_block s.now) out.old up.old rec.new out.new up.new result × (page.new ≡ page_after page.old o)) }
{
    match link::plan_sound(call, rec, s) {
        Err(refusal) => lent_record::decline(rec, refusal),
        Ok(p) => {
            if !has_place(p.reply, count) {
                return lent_record::decline(rec, Refusal::LogFull);
            }
            link::reserve(Ok(p), page);
            link::finish(call, Ok(p), page, rec, frame_read::cut_block(s), out, up)
        }
    }
}

// Enters what was sent in the next place of the log, and counts it; nothing where nothing was sent.
#[tactic(auto, using(octets::proofs::Test::picks), unfolding(crate::specs::Internal::noted, crate::specs::Internal::noted_count))]
fn note(end: End, log: &mut [u8], count: usize, sent: &[u8]) -> usize
    requires { (length sent.now ≤ longest_frame) × (length sent.now ≢ 0 → (count < places) × (log_size ≤ length log.old)) }
    ensures { (result ≡ noted_count count (length sent.now)) × (log.new ≡ noted (end_number end) log.old count sent.now) }
{
    if sent.is_empty() {
        return count;
    }
    bench_log::enter(log, count, end.number(), sent);
    count + 1
}

// The block of a DATA in its place of the log.
const BLOCK_AT: usize = bench_log::FRAME_AT + frame::DATA_BLOCK_AT;

// Where the block handed up stands in the log, which has it from start on; 0 where there is none.
#[tactic(auto, using(octets::proofs::Test::picks), unfolding(crate::specs::Internal::block_place))]
fn block_place(start: usize, block: usize) -> usize
    ensures { result ≡ block_place start block }
{
    if block == 0 {
        return 0;
    }
    start
}

// What a line answers, and the end that it is about. A block handed up stands in the log, from at on, or, where at is 0, at the start of the buffer
// lent for it.
// at and block stay numbers, 0 where there is none: dock_bench tells C them as they are.
#[derive(Clone, Copy)]
pub struct BenchAnswer {
    pub end: End,
    pub status: Status,
    pub sent: usize,
    pub at: usize,
    pub block: usize,
    pub count: usize,
}

// Logs what a call at an end has sent to the start of out, and tells of the call; a block that it hands up is in the log from start on.
fn finish(
    end: End,
    a: Answer,
    start: usize,
    log: &mut [u8],
    count: usize,
    out: &[u8],
) -> BenchAnswer
    requires { (a.sent ≤ length out.now) × ((a.sent ≤ longest_frame) × (a.sent ≢ 0 → (count < places) × (log_size ≤ length log.old))) }
    ensures { (result ≡ answer_from (end_number end) a start count) × (log.new ≡ noted (end_number end) log.old count (take a.sent out.now)) }
{
    let sent = a.sent;
    let counted = note(end, log, count, &out[..sent]);
    let status = a.status;
    BenchAnswer {
        end,
        status,
        sent,
        at: block_place(start, a.block),
        block: a.block,
        count: counted,
    }
}

// What an order has an end do: a call, or, where there is none, a restart.
#[tactic(auto, unfolding(crate::specs::Internal::task_of))]
fn task_of(order: Result<Order, u8>) -> Result<Option<Call>, u8>
    ensures { numbered result ≡ task_of (numbered order) }
{
    match order? {
        Order::Request(_) => Ok(Some(Call::Request)),
        Order::Deliver(_) => Ok(Some(Call::Receive)),
        Order::Restart(_) => Ok(None),
    }
}

// Does it at an end. A restart and a refusal are told as a call is, and send nothing.
fn do_task(
    task: Result<Option<Call>, u8>,
    rec: &mut [u8],
    page: &mut [u8],
    s: &[u8],
    count: usize,
    out: &mut [u8],
    up: &mut [u8],
) -> Answer
    requires { TaskReady (numbered task) (lent rec.old page.old) out.old up.old }
    ensures { (let o : Outcome Step = task_outcome (numbered task) (lent rec.old page.old) count s.now (rooms (length out.old) (length up.old)) in
        Called (call_by (numbered task)) o rec.old (cut_block s.now) out.old up.old rec.new out.new up.new result
        × (page.new ≡ page_after page.old o)) }
{
    match task {
        Ok(Some(call)) => call_end(call, rec, page, s, count, out, up),
        Ok(None) => lent_record::restart(rec, page),
        Err(number) => lent_record::refuse(rec, number),
    }
}

// The octets that an order gives to its call. They are not copied: those of a request are a part of its line, those of a frame of the log.
#[tactic(auto, using(octets::proofs::Buffers::whole), unfolding(crate::specs::Internal::octets_in))]
fn octets_of<'a>(order: Result<Order, u8>, s: &'a [u8], log: &'a [u8]) -> &'a [u8]
    requires { Readable (numbered order) s.now log.now }
    ensures { result.now ≡ octets_in (numbered order) s.now log.now }
{
    match order {
        Ok(Order::Request(_)) => &s[1..],
        Ok(Order::Deliver(n)) => bench_log::frame_of(log, n),
        Ok(Order::Restart(_)) | Err(_) => s,
    }
}

// Where the block of the frame that an order delivers stands in the log; 0 where it delivers none.
#[tactic(auto, unfolding(crate::specs::Answer::start_of, crate::specs::Answer::block_start))]
fn start_of(order: Result<Order, u8>) -> usize
    requires { Placed (numbered order) }
    ensures { result ≡ start_of (numbered order) }
{
    match order {
        Ok(Order::Request(_)) => 0,
        Ok(Order::Deliver(n)) => n * bench_log::PLACE_SIZE + BLOCK_AT,
        Ok(Order::Restart(_)) | Err(_) => 0,
    }
}

// Carries out an order at an end, where all questions up to 13 are passed, or refuses it there. s are the octets of its line.
// rec and page stay two parameters: of a struct that lends both, a clause has what they hold after as exit.0.now and exit.1.0.now, which is no plainer.
pub fn carry_out(
    end: End,
    order: Result<Order, u8>,
    rec: &mut [u8],
    page: &mut [u8],
    s: &[u8],
    log: &mut [u8],
    count: usize,
    out: &mut [u8],
    up: &mut [u8],
) -> BenchAnswer
    requires { OrderReady (numbered order) (lent rec.old page.old) s.now log.old count out.old up.old }
    ensures { (let l : Lent = lent rec.old page.old in
        let o : Outcome Order = numbered order in
        Does (end_number end) l log.old count (start_of o) (call_by (task_of o))
        (order_outcome o l log.old count s.now (rooms (length out.old) (length up.old)))
        out.old up.old (lent rec.new page.new) log.new out.new up.new result) }
{
    let told = do_task(
        task_of(order),
        rec,
        page,
        octets_of(order, s, log),
        count,
        out,
        up,
    );
    finish(end, told, start_of(order), log, count, out)
}
