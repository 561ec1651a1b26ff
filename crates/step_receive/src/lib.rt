// Receiving a frame, planned from the numbers of a record and the lengths of its held blocks.
#![tactic(auto)]

ghost use Rattle.std.specs.Prelude.{◌≡◌, ◌≤◌, ◌<◌, length};
ghost use Rattle.octets.specs.Sizes.{longest_block, last_number};
ghost use Rattle.octets.specs.Test.{ok};
ghost use Rattle.frame.specs.Frame.{Block};
ghost use Rattle.frame.specs.Answer.{header_of, frame_of};
ghost use Rattle.protocol.specs.Table.{rule, apply};
ghost use Rattle.protocol.specs.History.{deliver, perform};
ghost use Rattle.step_rules.specs.Internal.{Chosen};
ghost use Rattle.step_plan.specs.Internal.{Planned, keeping, turning};

use frame::{Header, Kind};
use octets::HELD_SIZE;
use protocol::Rule;
use step_plan::{Notice, Plan, say};
use step_rules::{ACTIVE_OPENING, CLOSED, ESTABLISHED, LISTENING, Numbers, PASSIVE_OPENING};

// What the row of the step table does that applies to the frame f. reply is kind(L, s).
fn apply(row: Rule, n: Numbers, held: &[u8; HELD_SIZE], f: Header) -> Plan
    requires { (n.waiting ≤ n.accepted) × ((f.kind ≡ Kind.Data → f.number < last_number) × Chosen rule n f row) }
    ensures { (b : Block) → (f.kind ≡ Kind.Data → (1 ≤ length b) × (length b ≤ longest_block)) → Planned n held.now b (λ e. ok (apply row e (frame_of f b))) (Ok result) }
{
    let reply = |kind: Kind| -> Option<Header>
        ensures { result ≡ Some (header_of kind n.local f.sender 0) }
    { say(kind, n.local, f.sender, 0) };
    let keep = |reply: Option<Header>| -> Plan
        ensures { result ≡ keeping n Notice.Nothing reply }
    { Plan::keep(n, Notice::Nothing, reply) };
    let turn = |state: u8, remote: u32, notice: Notice, reply: Option<Header>| -> Plan
        ensures { result ≡ turning n held.entry.now state remote notice reply }
    { Plan::turn(n, held, state, remote, notice, reply) };
    match row {
        Rule::Ignore => keep(None),
        Rule::Refuse => keep(reply(Kind::Rej)),
        Rule::AcceptDisconnect => keep(reply(Kind::Drack)),
        Rule::Answer => turn(
            PASSIVE_OPENING,
            f.sender,
            Notice::Nothing,
            reply(Kind::Crpo),
        ),
        Rule::Reset => keep(reply(Kind::Reset)),
        Rule::OpenAndConfirm => turn(ESTABLISHED, f.sender, Notice::Connected, reply(Kind::Crack)),
        Rule::CallAgain => turn(ACTIVE_OPENING, f.sender, Notice::Nothing, reply(Kind::Crao)),
        Rule::Open => turn(ESTABLISHED, f.sender, Notice::Connected, None),
        Rule::Rejected => turn(CLOSED, 0, Notice::Rejected, None),
        Rule::RejectedByDisconnect => turn(CLOSED, 0, Notice::Rejected, reply(Kind::Drack)),
        Rule::ListenAgain => turn(LISTENING, 0, Notice::Nothing, None),
        Rule::ClosedByPartner => turn(CLOSED, 0, Notice::ClosedByPartner, reply(Kind::Drack)),
        Rule::ClosedByRejection => turn(CLOSED, 0, Notice::ClosedByPartner, None),
        Rule::Confirm => keep(say(Kind::Crack, n.local, n.remote, 0)),
        Rule::HandUp => Plan::hand_up(n, held),
        Rule::Hold => Plan::hold(n, held, (f.number - n.delivered) as usize),
        Rule::Acknowledge => keep(say(Kind::Ack, n.local, n.remote, n.delivered)),
        Rule::Release => Plan::release(n, f.number),
        Rule::FinishedByDisconnect => turn(CLOSED, 0, Notice::CloseFinished, reply(Kind::Drack)),
        Rule::Finished => turn(CLOSED, 0, Notice::CloseFinished, None),
    }
}

// A frame that questions 3 to 7 have passed. No question of document 01 is left, so that it is never refused. held has the lengths of the held blocks.
pub fn hear(f: Header, n: Numbers, held: &[u8; HELD_SIZE]) -> Plan
    requires { (n.waiting ≤ n.accepted) × (f.kind ≡ Kind.Data → f.number < last_number) }
    ensures { (b : Block) → (f.kind ≡ Kind.Data → (1 ≤ length b) × (length b ≤ longest_block)) → Planned n held.now b (perform (deliver (frame_of f b))) (Ok result) }
{
    let row = n.choose(f);
    apply(row, n, held, f)
}
