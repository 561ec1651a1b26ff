// The calls of an end on lent buffers: its record of 1,058 octets, its page of 4,096, a request or a frame, room for a frame out, and a request's
// room for a block. A call is planned first, and nothing is stored; then come its stores, in this order: one octet of the page at most, by
// page::reserve, which stores nothing else; the frame out, the block, the record, the numbers told.
#![tactic(auto)]

ghost use Rattle.std.specs.Prelude.{◌≡◌, true, [], ◌+◌, ◌*◌, ◌≤◌, length, IfOk, MatchResult, OnOk};
ghost use Rattle.octets.specs.Sizes.{page_size, numbers_each, last_incarnation};
ghost use Rattle.octets.specs.Test.{Outcome};
ghost use Rattle.octets.specs.Octets.{put};
ghost use Rattle.frame.specs.Read.{cut_block};
ghost use Rattle.page.specs.Page.{runs, count, reserving};
ghost use Rattle.protocol.specs.Table.{Step};
ghost use Rattle.call_spec.specs.declared.Call.TheVariants.{Receive};
ghost use Rattle.call_spec.specs.Calls.{rooms};
ghost use Rattle.call_spec.specs.Answers.{block_of};
ghost use Rattle.endpoint.specs.Record.{record_size, encode, decode};
ghost use Rattle.endpoint_places.specs.Internal.{PlanFits, carried};
ghost use Rattle.endpoint_plan.specs.Internal.{PlansFrom, PlansAny, Reserved};
ghost use Rattle.lent_record.specs.Record.{format};
ghost use Rattle.link.specs.Internal.{PlansLent};
ghost use Rattle.link.specs.Lent.{Called, lent_outcome, CalledLent};

use call_spec::{Call, Status};
use endpoint::{BLOCKS_AT, Endpoint, HELD_BLOCKS_AT, HELD_LENGTHS_AT, LENGTHS_AT, Parts};
use endpoint_plan::Rooms;
use lent_record::{Answer, RECORD_SIZE, SUCCESS};
use octets::Refusal;
use step_plan::Plan;

// The plan of a call where 11, 12 and 15 are passed.
pub fn plan_sound(call: Call, rec: &[u8], s: &[u8]) -> Result<Plan, Refusal>
    requires { (record_size ≤ length rec.now) × (format.sound rec.now ≡ true) }
    ensures { PlansAny (decode rec.now) call s.now result }
{
    let parts = Parts::load(rec);
    let message = endpoint_plan::read(call, s);
    endpoint_plan::plan(message, parts.numbers, parts.held.lengths)
}

// The plan of a call of a lent record with its page, from the record's own octets: s has those of a request or of a frame, room the lengths of the
// buffers. Nothing is stored.
fn plan_call(call: Call, rec: &[u8], page: &[u8], s: &[u8], room: Rooms) -> Result<Plan, Refusal>
    requires { record_size ≤ length rec.now }
    ensures { PlansLent call rec.now page.now s.now (rooms room.frame room.block) result }
{
    endpoint_plan::plan_call(call, Parts::load(rec), page, s, room)
}

// The one store of a planned call to its page, before all its others: the number that the plan leaves is reserved. A refusal stores nothing.
pub fn reserve(plan: Result<Plan, Refusal>, page: &mut [u8])
    requires { IfOk plan (λ p. ((page_size ≤ length page.old) × (runs page.old ≡ true)) × ((p.numbers.local ≤ last_incarnation) × (p.numbers.local ≤ numbers_each * count page.old + numbers_each))) }
    ensures { MatchResult plan (λ p. page.new ≡ reserving p.numbers.local page.old) (λ k. page.new ≡ page.old) × Reserved plan page.new }
{
    if let Ok(p) = plan {
        page::reserve(p.numbers.local, page);
    }
}

// Changes the record where it lies: its numbers, and of the lengths and blocks what the plan says, where the block joins those that wait or those held.
// Places that all stay are passed over, and those that are all written afresh are one run of octets.
fn store(p: Plan, block: &[u8], rec: &mut [u8])
    requires { (record_size ≤ length rec.old) × PlanFits p block.now }
    ensures { rec.new ≡ put rec.old 0 (encode (carried p block.now (decode rec.old))) }
{
    let n = p.numbers;
    endpoint::store_numbers(n, rec);
    let queue = p.queue;
    let held = p.held;
    if endpoint_places::keeps(queue, held) {
        return;
    }
    if endpoint_places::clears(n.state, queue, held) {
        endpoint_places::clear(&mut rec[LENGTHS_AT..RECORD_SIZE]);
        return;
    }
    let count = [block.len() as u8];
    endpoint_places::change_places(queue, 1, &count, &mut rec[LENGTHS_AT..BLOCKS_AT]);
    endpoint_places::change_places(
        queue,
        Endpoint::LONGEST_BLOCK,
        block,
        &mut rec[BLOCKS_AT..HELD_LENGTHS_AT],
    );
    endpoint_places::change_places(held, 1, &count, &mut rec[HELD_LENGTHS_AT..HELD_BLOCKS_AT]);
    endpoint_places::change_places(
        held,
        Endpoint::LONGEST_BLOCK,
        block,
        &mut rec[HELD_BLOCKS_AT..RECORD_SIZE],
    );
}

// The other stores of a planned call, whose message has this block, and its answer: the frame out, the block handed up, then the record. They come after
// the page's one store: the number that the plan leaves is reserved on the page that is lent, and nothing can store to it here. A plan that refuses stores
// nothing; its refusal is told of a record that is too short, too.
pub fn finish(
    call: Call,
    plan: Result<Plan, Refusal>,
    page: &[u8],
    rec: &mut [u8],
    block: &[u8],
    out: &mut [u8],
    up: &mut [u8],
) -> Answer
    requires { OnOk plan (record_size ≤ length rec.old) × (Reserved plan page.now × ((o : Outcome Step) × PlansFrom call (rooms (length out.old) (length up.old)) (decode rec.old) block.now o plan)) }
    ensures { (o : Outcome Step) → PlansFrom call (rooms (length out.old) (length up.old)) (decode rec.old) block.now o plan
        → Called call o rec.old block.now out.old up.old rec.new out.new up.new result }
{
    let p = match plan {
        Ok(p) => p,
        Err(refusal) => return lent_record::decline(rec, refusal),
    };
    let parts = Parts::load(rec);
    let sent = endpoint_places::send(p, block, parts.queue, out);
    let handed = endpoint_places::hand_up(call, p.notice, parts.held, block, up);
    store(p, block, rec);
    let after = p.numbers;
    Answer {
        status: Status {
            number: SUCCESS,
            state: after.state,
            notice: p.notice.number(),
            local: after.local,
            remote: after.remote,
        },
        sent,
        block: handed,
    }
}

// A call of an end: a request, the timer call among them, or a frame received. Receiving neither asks nor writes up.
pub fn perform(
    call: Call,
    rec: &mut [u8],
    page: &mut [u8],
    s: &[u8],
    out: &mut [u8],
    up: &mut [u8],
) -> Answer
    ensures { CalledLent call rec.old page.old s.now out.old up.old rec.new page.new out.new up.new result }
{
    if rec.len() < RECORD_SIZE {
        return lent_record::decline(rec, Refusal::ShortBuffer);
    }
    let room = Rooms {
        frame: out.len(),
        block: up.len(),
    };
    let plan = plan_call(call, rec, page, s, room);
    reserve(plan, page);
    finish(call, plan, page, rec, frame_read::cut_block(s), out, up)
}

// A frame received by a call that only looks at the page: no number is begun, so that nothing has to be reserved. block is its block. It does not call
// perform, which would have to be lent the page to store in it.
fn hear(
    rec: &mut [u8],
    page: &[u8],
    s: &[u8],
    block: &[u8],
    out: &mut [u8],
    up: &mut [u8],
) -> Answer
    requires { block.now ≡ cut_block s.now }
    ensures { (let o : Outcome Step = lent_outcome Receive rec.old page.now s.now out.old up.old in
        Called Receive o rec.old block.now out.old up.old rec.new out.new up.new result) }
{
    if rec.len() < RECORD_SIZE {
        return lent_record::decline(rec, Refusal::ShortBuffer);
    }
    let room = Rooms {
        frame: out.len(),
        block: up.len(),
    };
    let plan = plan_call(Call::Receive, rec, page, s, room);
    finish(Call::Receive, plan, page, rec, block, out, up)
}

// Receives the frame s. Gives what is told, and the block handed up: a part of s, empty where there is none.
pub fn receive<'a>(rec: &mut [u8], page: &[u8], s: &'a [u8], out: &mut [u8]) -> (Answer, &'a [u8])
    ensures { (let o : Outcome Step = lent_outcome Receive rec.old page.now s.now out.old [] in
        Called Receive o rec.old (cut_block s.now) out.old [] rec.new out.new [] result.0 × (result.1.now ≡ block_of o)) }
{
    let block = frame_read::cut_block(s);
    let a = hear(rec, page, s, block, out, &mut []);
    (a, &block[..a.block])
}
