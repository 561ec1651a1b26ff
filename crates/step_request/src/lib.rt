// Requests and the timer call, planned from the numbers of a record and the lengths of its held blocks.
#![tactic(auto, unfolding(protocol::specs::Requests::request, protocol::specs::Requests::refusal, protocol::specs::Requests::request_questions, octets::specs::Test::outcome, octets::specs::Test::first, octets::specs::Test::when))]

ghost use Rattle.std.specs.Prelude.{◌≡◌, ℕ, ◌≤◌, ◌<◌, List, [], ◌∷◌, ltb, eqb, length, get_or};
ghost use Rattle.octets.specs.Sizes.{longest_block, last_number};
ghost use Rattle.octets.specs.Test.{first};
ghost use Rattle.octets.specs.Refusal.{refusal_in};
ghost use Rattle.frame.specs.Frame.{Block, connect, listen, end_listening, close, timer, collect, send};
ghost use Rattle.frame.specs.Answer.{request_of};
ghost use Rattle.protocol.specs.Requests.{resent, request};
ghost use Rattle.protocol.specs.History.{ask};
ghost use Rattle.protocol.specs.Limits.{Readable};
ghost use Rattle.step_rules.specs.Internal.{holding};
ghost use Rattle.step_plan.specs.Internal.{Oldest, sent_by, Planned};

use frame::{Header, Kind, RequestKind};
use octets::{HELD_SIZE, LAST_INCARNATION, LAST_NUMBER, Refusal};
use step_plan::{Notice, Plan, say};
use step_rules::{
    ACTIVE_OPENING, CLOSED, CLOSING, ESTABLISHED, LISTENING, Numbers, PASSIVE_OPENING,
};

// The most blocks that wait.
const QUEUE_SIZE: u8 = octets::QUEUE_SIZE as u8;

// Questions 8 and 9 of a request that one state allows and that takes the next of some numbers up to last.
fn admit(n: Numbers, allowed: u8, number: u32, last: u32) -> Result<(), Refusal>
    ensures { refusal_in result ≡ first ((8, eqb n.state allowed) ∷ (9, ltb number last) ∷ []) }
{
    if n.state != allowed {
        return Err(Refusal::WrongState);
    }
    if number >= last {
        return Err(Refusal::NoNumberLeft);
    }
    Ok(())
}

// Connect and listen differ in the state and in what is sent, which is all that each of them says.
fn connect(n: Numbers, held: &[u8; HELD_SIZE]) -> Result<Plan, Refusal>
    ensures { (b : Block) → Planned n held.now b (request connect) result }
{
    admit(n, CLOSED, n.local, LAST_INCARNATION)?;
    let call = say(Kind::Crao, n.local + 1, 0, 0);
    Ok(Plan::begin(n, held, ACTIVE_OPENING, call))
}

fn listen(n: Numbers, held: &[u8; HELD_SIZE]) -> Result<Plan, Refusal>
    ensures { (b : Block) → Planned n held.now b (request listen) result }
{
    admit(n, CLOSED, n.local, LAST_INCARNATION)?;
    Ok(Plan::begin(n, held, LISTENING, None))
}

fn end_listening(n: Numbers, held: &[u8; HELD_SIZE]) -> Result<Plan, Refusal>
    ensures { (b : Block) → Planned n held.now b (request end_listening) result }
{
    if n.state != LISTENING {
        return Err(Refusal::WrongState);
    }
    Ok(Plan::turn(n, held, CLOSED, 0, Notice::Nothing, None))
}

// Close tells the partner, and waits until it has heard. Where no partner is known, there is nobody to tell.
fn close(n: Numbers, held: &[u8; HELD_SIZE]) -> Result<Plan, Refusal>
    ensures { (b : Block) → Planned n held.now b (request close) result }
{
    if n.state != ACTIVE_OPENING && n.state != ESTABLISHED {
        return Err(Refusal::WrongState);
    }
    if n.remote == 0 {
        return Ok(Plan::turn(n, held, CLOSED, 0, Notice::CloseFinished, None));
    }
    let reply = say(Kind::Dr, n.local, n.remote, 0);
    Ok(Plan::turn(n, held, CLOSING, n.remote, Notice::Nothing, reply))
}

// The block joins the waiting ones as number t; then t + 1.
fn send(n: Numbers) -> Result<Plan, Refusal>
    ensures { (z : List ℕ) (b : Block) → 1 ≤ length b → length b ≤ longest_block → Planned n z b (request (send b)) result }
{
    admit(n, ESTABLISHED, n.accepted, LAST_NUMBER)?;
    if n.waiting >= QUEUE_SIZE {
        return Err(Refusal::QueueFull);
    }
    Ok(Plan::join(n))
}

// What the timer call sends again, which the partner may not have heard. The oldest waiting block has number t - w.
#[tactic(auto, unfolding(protocol::specs::Requests::resent, protocol::specs::Requests::oldest, step_plan::specs::Internal::sent_by, octets::specs::Test::if_eq, octets::specs::Test::when))]
fn resent(n: Numbers) -> Option<Header>
    requires { n.waiting ≤ n.accepted }
    ensures { (q h : List Block) (old : Block) → length q ≡ n.waiting → Oldest q old → sent_by result old ≡ resent (holding n q h) }
{
    match n.state {
        ACTIVE_OPENING => say(Kind::Crao, n.local, n.remote, 0),
        PASSIVE_OPENING => say(Kind::Crpo, n.local, n.remote, 0),
        ESTABLISHED if n.waiting > 0 => say(Kind::Data, n.local, n.remote, n.oldest()),
        CLOSING => say(Kind::Dr, n.local, n.remote, 0),
        _ => None,
    }
}

// The timer call is never refused.
fn timer(n: Numbers) -> Plan
    requires { n.waiting ≤ n.accepted }
    ensures { (z : List ℕ) (b : Block) → Planned n z b (request timer) (Ok result) }
{
    Plan::keep(n, Notice::Nothing, resent(n))
}

// Collect: block e is handed up if it is held; otherwise nothing is done.
fn collect(n: Numbers, held: &[u8; HELD_SIZE]) -> Result<Plan, Refusal>
    requires { 1 ≤ get_or held.now 0 0 → n.delivered < last_number }
    ensures { (b : Block) → Planned n held.now b (request collect) result }
{
    if n.state != ESTABLISHED {
        return Err(Refusal::WrongState);
    }
    if held[0] == 0 {
        return Ok(Plan::keep(n, Notice::Nothing, None));
    }
    Ok(Plan::hand_up(n, held))
}

// A request of the endpoint's user, or the timer call, that questions 3 to 6 have passed.
#[tactic(auto, unfolding(frame::specs::Answer::request_of))]
pub fn ask(kind: RequestKind, n: Numbers, held: &[u8; HELD_SIZE]) -> Result<Plan, Refusal>
    requires { (n.waiting ≤ n.accepted) × (1 ≤ get_or held.now 0 0 → n.delivered < last_number) }
    ensures { (b : Block) → Readable (ask (request_of kind b)) → Planned n held.now b (request (request_of kind b)) result }
{
    match kind {
        RequestKind::Connect => connect(n, held),
        RequestKind::Listen => listen(n, held),
        RequestKind::EndListening => end_listening(n, held),
        RequestKind::Close => close(n, held),
        RequestKind::Send => send(n),
        RequestKind::Timer => Ok(timer(n)),
        RequestKind::Collect => collect(n, held),
    }
}
