// The calls of one end of a connection by value: those of its user, the timer call, and receiving. A call is planned first, and nothing is stored
// before its plan stands; then its frame is sent and the record changed.
#![tactic(auto)]

ghost use Rattle.std.specs.Prelude.{◌≡◌, length};
ghost use Rattle.octets.specs.Test.{Outcome, refused};
ghost use Rattle.octets.specs.Refusal.{refusal_number};
ghost use Rattle.protocol.specs.Table.{Step};
ghost use Rattle.call_spec.specs.Calls.{given, rooms, restarting};
ghost use Rattle.endpoint_places.specs.Internal.{places_after, PlaceFor, PlanFits, carried};
ghost use Rattle.endpoint_plan.specs.Internal.{PlansFor, Reserved};
ghost use Rattle.endpoint_step.specs.Calls.{step_answer_of, Advances};
ghost use Rattle.endpoint_step.specs.Internal.{Finishes};

use call_spec::Call;
use endpoint::Endpoint;
use endpoint_plan::Rooms;
use octets::Refusal;
use step_plan::{Notice, Places, Plan};

// What an answer tells where no question refuses, and where nothing has come about. A call by value stands on no lent record, so that it has its own.
const SUCCESS: u8 = 0;

const NO_NOTICE: u8 = Notice::Nothing as u8;

// What a plan makes of an array of a record by value, of lengths or of blocks: those of an end that leaves open are new ones.
fn places_after<const N: usize>(places: Places, width: usize, s: &[u8], d: [u8; N]) -> [u8; N]
    requires { PlaceFor places width s.now d }
    ensures { result ≡ places_after places width s.now d.entry }
{
    if let Places::Clear = places {
        return [0; N];
    }
    let mut after = d;
    endpoint_places::change_places(places, width, s, &mut after);
    after
}

// The record after the plan, whose message has this block.
#[tactic(auto, unfolding(endpoint_places::specs::Internal::carried))]
fn carry_out(e: Endpoint, p: Plan, block: &[u8]) -> Endpoint
    requires { PlanFits p block.now }
    ensures { result ≡ carried p block.now e }
{
    let count = [block.len() as u8];
    let n = p.numbers;
    Endpoint {
        state: n.state,
        local: n.local,
        remote: n.remote,
        accepted: n.accepted,
        delivered: n.delivered,
        waiting: n.waiting,
        lengths: places_after(p.queue, 1, &count, e.lengths),
        blocks: places_after(p.queue, Endpoint::LONGEST_BLOCK, block, e.blocks),
        held_lengths: places_after(p.held, 1, &count, e.held_lengths),
        held_blocks: places_after(p.held, Endpoint::LONGEST_BLOCK, block, e.held_blocks),
    }
}

// What a call by value answers. number is document 01's number of the refusal, 0 for success; sent the length of the frame sent, which
// stands at the start of the caller's buffer (0: none); block the length of the block handed up (0: none), which stands in the caller's
// own received frame, from octet 14 on, or, of a request, at the start of the buffer lent for it. number and notice stay numbers: step_answer_of gives
// hosts those of document 01. sent and block are 0 where there is none, as `answer_in` and C have it.
#[derive(Clone, Copy)]
pub struct StepAnswer {
    pub number: u8,
    pub endpoint: Endpoint,
    pub notice: u8,
    pub sent: usize,
    pub block: usize,
}

// A refusal leaves the record.
#[tactic(auto, unfolding(crate::specs::Calls::step_answer_of))]
fn unchanged(e: Endpoint, refusal: Refusal) -> StepAnswer
    ensures { result ≡ step_answer_of e (refused (refusal_number refusal)) }
{
    StepAnswer {
        number: refusal.number(),
        endpoint: e,
        notice: NO_NOTICE,
        sent: 0,
        block: 0,
    }
}

// The other stores of a planned call, and its answer: the frame out, the block handed up. They come after the page's one store: the number that the
// plan leaves is reserved on the page that is lent, and nothing can store to it here.
fn finish(
    call: Call,
    e: Endpoint,
    p: Plan,
    page: &[u8],
    block: &[u8],
    out: &mut [u8],
    up: &mut [u8],
) -> StepAnswer
    requires { Reserved (Ok p) page.now × ((o : Outcome Step) × PlansFor call (rooms (length out.old) (length up.old)) e block.now o p) }
    ensures { (o : Outcome Step) → PlansFor call (rooms (length out.old) (length up.old)) e block.now o p → Finishes call e block.now o out.old up.old out.new up.new result }
{
    let parts = e.parts();
    let sent = endpoint_places::send(p, block, parts.queue, out);
    let handed = endpoint_places::hand_up(call, p.notice, parts.held, block, up);
    StepAnswer {
        number: SUCCESS,
        endpoint: carry_out(e, p, block),
        notice: p.notice.number(),
        sent,
        block: handed,
    }
}

// A request, the timer call among them, or receiving, by value: page is the end's page, s has the octets of the request or of the frame, out
// room for a frame, up room for a block, which receiving does not need. The page's one store comes before every other.
pub fn step(
    call: Call,
    e: Endpoint,
    page: &mut [u8],
    s: &[u8],
    out: &mut [u8],
    up: &mut [u8],
) -> StepAnswer
    ensures { Advances e page.old (given call s.now (rooms (length out.old) (length up.old))) out.old up.old page.new out.new up.new result }
{
    let room = Rooms {
        frame: out.len(),
        block: up.len(),
    };
    match endpoint_plan::plan_call(call, e.parts(), page, s, room) {
        Err(refusal) => unchanged(e, refusal),
        Ok(p) => {
            page::reserve(p.numbers.local, page);
            finish(call, e, p, page, frame_read::cut_block(s), out, up)
        }
    }
}

// A restart by value: it looks at the page alone. A refusal gives back the record that it was to replace.
pub fn restart(e: Endpoint, page: &[u8]) -> StepAnswer
    ensures { result ≡ step_answer_of e (restarting page.now) }
{
    if page.len() < octets::PAGE_SIZE {
        return unchanged(e, Refusal::ShortBuffer);
    }
    if !page::is_run(page) {
        return unchanged(e, Refusal::WrongPage);
    }
    StepAnswer {
        number: SUCCESS,
        endpoint: Endpoint::restarted(page::count_used(page)),
        notice: NO_NOTICE,
        sent: 0,
        block: 0,
    }
}
