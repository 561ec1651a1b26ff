// The plan of a call of an end: the questions that come before its octets are read, the message that they are read as, and what the message comes to. Nothing
// is stored.
#![tactic(auto)]

ghost use Rattle.std.specs.Prelude.{◌≡◌, []};
ghost use Rattle.octets.specs.Test.{first, mapped};
ghost use Rattle.octets.specs.Refusal.{told, refusal_in};
ghost use Rattle.frame.specs.Read.{cut_block};
ghost use Rattle.frame.specs.Answer.{meant};
ghost use Rattle.call_spec.specs.Calls.{given, rooms, own_questions};
ghost use Rattle.endpoint.specs.Sound.{sound};
ghost use Rattle.endpoint.specs.Internal.{whole};
ghost use Rattle.endpoint_plan.specs.Internal.{rooms_ok, input_of, Plannable, PlannedBy, Plans};

use call_spec::Call;
use endpoint::{Endpoint, Parts};
use frame::Message;
use octets::Refusal;
use step_plan::Plan;
use step_rules::Numbers;

// The lengths of the buffers that are lent to a call for a frame and for a block.
#[derive(Clone, Copy, Debug, PartialEq, Eq)]
pub struct Rooms {
    pub frame: usize,
    pub block: usize,
}

impl Rooms {
    // Question 11 of both. The one for a block is lent to the calls that make requests.
    #[tactic(auto, unfolding(call_spec::specs::Calls::block_room_ok))]
    fn suffice(self, call: Call) -> bool
        ensures { result ≡ rooms_ok call (rooms self.frame self.block) }
    {
        (Endpoint::LONGEST_FRAME <= self.frame)
            & match call {
                Call::Request => Endpoint::LONGEST_BLOCK <= self.block,
                Call::Receive => true,
            }
    }
}

// 11, 12 and 15 of a call of the record of these parts, with this page and these rooms.
#[tactic(auto, using(octets::proofs::Test::ladder, crate::proofs::Ready::short_rooms, crate::proofs::Ready::roomy))]
fn ask<'a>(call: Call, parts: Parts<'a>, page: &[u8], room: Rooms) -> Result<(), Refusal>
    ensures { refusal_in result ≡ first (own_questions (sound (whole parts.entry)) parts.entry.numbers.local page.now (given call [] (rooms room.frame room.block))) }
{
    if !room.suffice(call) {
        return Err(Refusal::ShortBuffer);
    }
    if page.len() < octets::PAGE_SIZE {
        return Err(Refusal::ShortBuffer);
    }
    if !parts.is_sound() {
        return Err(Refusal::Unsound);
    }
    if !page::goes_with(parts.numbers.local, page) {
        return Err(Refusal::WrongPage);
    }
    Ok(())
}

// Reads the octets of a call: 3 to 7.
#[tactic(auto, unfolding(crate::specs::Internal::input_of, frame::specs::Answer::meant, octets::specs::Test::mapped))]
pub fn read(call: Call, s: &[u8]) -> Result<Message, Refusal>
    ensures { mapped (λ m. meant m (cut_block s.now)) (told result) ≡ input_of call s.now }
{
    Ok(match call {
        Call::Request => Message::Request(frame_read::read_request(s)?),
        Call::Receive => Message::Frame(frame_read::read_frame(s)?),
    })
}

// What a message comes to at a record of these numbers, whose held blocks have these lengths; octets that could not be read come to their refusal.
#[tactic(auto, unfolding(crate::specs::Internal::follows, protocol::specs::History::perform))]
pub fn plan(
    message: Result<Message, Refusal>,
    n: Numbers,
    held: &[u8; octets::HELD_SIZE],
) -> Result<Plan, Refusal>
    requires { Plannable message n held.now }
    ensures { PlannedBy message n held.now result }
{
    match message? {
        Message::Request(kind) => step_request::ask(kind, n, held),
        Message::Frame(header) => Ok(step_receive::hear(header, n, held)),
    }
}

// The plan of a call of the record of these parts, with this page: its questions, its message, and what that comes to.
pub fn plan_call<'a>(
    call: Call,
    parts: Parts<'a>,
    page: &[u8],
    s: &[u8],
    room: Rooms,
) -> Result<Plan, Refusal>
    ensures { Plans (whole parts.entry) page.now (given call s.now (rooms room.frame room.block)) result }
{
    ask(call, parts, page, room)?;
    plan(read(call, s), parts.numbers, parts.held.lengths)
}
