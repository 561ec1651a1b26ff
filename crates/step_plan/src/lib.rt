// What a call of an end comes to, planned from the numbers of its record and the lengths of its held blocks. Whoever holds the record carries the plan out.
#![tactic(auto)]

ghost use Rattle.std.specs.Prelude.{◌≡◌, ◌-◌, ◌≤◌, ◌<◌, length, get_or};
ghost use Rattle.octets.specs.Sizes.{longest_frame, longest_block, queue_size, held_size, last_number, last_incarnation};
ghost use Rattle.octets.specs.Test.{when, if_eq};
ghost use Rattle.frame.specs.Answer.{header_of};
ghost use Rattle.call_spec.specs.Answers.{block_part};
ghost use Rattle.step_plan.specs.Internal.{told_notice, block_by, block_out, sent_by, leaves_alone, Sends};
ghost use Rattle.step_plan.specs.Internal.{keeping, handing, turning, beginning, joining, holding_plan, releasing_plan};

use call_spec::Call;
use frame::{Header, Kind};
use step_rules::Numbers;

// The indications of an answer, document 01's notices. A refusal has Nothing too.
#[derive(Clone, Copy, Debug, PartialEq, Eq)]
pub enum Notice {
    Nothing = 0,
    Connected = 1,
    Rejected = 2,
    ClosedByPartner = 3,
    CloseFinished = 4,
    HandedUp = 5,
}

impl Notice {
    // Its number in document 01.
    pub fn number(self) -> u8
        ensures { result ≡ told_notice self }
    {
        self as u8
    }
}

// What becomes of places for blocks: they stay; all are written afresh; a block joins at this place; so many of the first leave, and the others
// move down. (In this order a call takes the machine fewer instructions.)
#[derive(Clone, Copy)]
pub enum Places {
    Keep,
    Clear,
    Join(usize),
    Release(usize),
}

impl Places {
    // Where no block is in any place, nothing need change.
    #[tactic(auto, unfolding(octets::specs::Test::when))]
    fn unless_empty(empty: bool, change: Places) -> Places
        ensures { result ≡ when empty Places.Keep change }
    {
        if empty { Places::Keep } else { change }
    }
}

// A frame of these numbers; one with two numbers only has 0 for the last.
pub fn say(kind: Kind, sender: u32, quoted: u32, number: u32) -> Option<Header>
    ensures { result ≡ Some (header_of kind sender quoted number) }
{
    Some(Header {
        kind,
        sender,
        quoted,
        number,
    })
}

// A call that is accepted: numbers are the new ones of the record; queue is what becomes of the waiting blocks, where a send's block joins; held what
// becomes of the held ones, where a DATA's block does; reply the frame that is sent, if one is. A DATA carries the block that joins, or, where none
// does, the oldest that waits.
#[derive(Clone, Copy)]
pub struct Plan {
    pub numbers: Numbers,
    pub queue: Places,
    pub held: Places,
    pub notice: Notice,
    pub reply: Option<Header>,
}

// In these plans n are the numbers of the record, and held has the lengths of the held places. They stay two parameters: keep, join and release plan from
// the numbers alone. hold looks at one place below eight, and takes all eight; the others take a slice, since what they promise holds of any number of
// places.
impl Plan {
    // The blocks stay, with these numbers.
    pub fn keep(n: Numbers, notice: Notice, reply: Option<Header>) -> Plan
        ensures { result ≡ keeping n notice reply }
    {
        Plan {
            numbers: n,
            queue: Places::Keep,
            held: Places::Keep,
            notice,
            reply,
        }
    }

    // One block more is handed up, the frame's or the held one: e + 1, and the held places move down.
    #[tactic(auto, unfolding(crate::specs::Internal::leaving))]
    pub fn hand_up(n: Numbers, held: &[u8]) -> Plan
        requires { n.delivered < last_number }
        ensures { result ≡ handing n held.now }
    {
        let delivered = n.delivered + 1;
        Plan {
            numbers: Numbers { delivered, ..n },
            queue: Places::Keep,
            held: Places::unless_empty(octets::is_clear(held), Places::Release(1)),
            notice: Notice::HandedUp,
            reply: say(Kind::Ack, n.local, n.remote, delivered),
        }
    }

    // The same incarnation in another state, with this partner. Only an open end has blocks, and it begins with none: all leave.
    #[tactic(auto, unfolding(crate::specs::Internal::clearing, crate::specs::Internal::emptying, octets::specs::Test::if_eq))]
    pub fn turn(
        n: Numbers,
        held: &[u8],
        state: u8,
        remote: u32,
        notice: Notice,
        reply: Option<Header>,
    ) -> Plan
        ensures { result ≡ turning n held.now state remote notice reply }
    {
        Plan {
            numbers: Numbers {
                state,
                local: n.local,
                remote,
                accepted: 0,
                delivered: 0,
                waiting: 0,
            },
            queue: Places::unless_empty(n.waiting == 0, Places::Clear),
            held: Places::unless_empty(octets::is_clear(held), Places::Clear),
            notice,
            reply,
        }
    }

    // The next incarnation in this state, with no partner known.
    pub fn begin(n: Numbers, held: &[u8], state: u8, reply: Option<Header>) -> Plan
        requires { n.local < last_incarnation }
        ensures { result ≡ beginning n held.now state reply }
    {
        let next = Numbers {
            local: n.local + 1,
            ..n
        };
        Plan::turn(next, held, state, 0, Notice::Nothing, reply)
    }

    // A block joins the waiting ones as number t; then t + 1.
    pub fn join(n: Numbers) -> Plan
        requires { (n.accepted < last_number) × (n.waiting < queue_size) }
        ensures { result ≡ joining n }
    {
        Plan {
            numbers: Numbers {
                accepted: n.accepted + 1,
                waiting: n.waiting + 1,
                ..n
            },
            queue: Places::Join(usize::from(n.waiting)),
            held: Places::Keep,
            notice: Notice::Nothing,
            reply: say(Kind::Data, n.local, n.remote, n.accepted),
        }
    }

    // The blocks before this number leave; the oldest waiting one has number t - w.
    pub fn release(n: Numbers, number: u32) -> Plan
        requires { (n.waiting ≤ n.accepted) × ((n.accepted - n.waiting < number) × (number ≤ n.accepted)) }
        ensures { result ≡ releasing_plan n (number - (n.accepted - n.waiting)) }
    {
        let gone = number - n.oldest();
        Plan {
            numbers: Numbers {
                // No more leave than wait, so that the count fits in an octet.
                waiting: n.waiting - (gone as u8),
                ..n
            },
            queue: Places::Release(gone as usize),
            held: Places::Keep,
            notice: Notice::Nothing,
            reply: None,
        }
    }

    // An early block: the first copy is held at its place, and each copy is acknowledged.
    #[tactic(auto, using(octets::proofs::Test::eq_yes, octets::proofs::Test::eq_no))]
    pub fn hold(n: Numbers, held: &[u8; octets::HELD_SIZE], place: usize) -> Plan
        requires { place < held_size }
        ensures { result ≡ if_eq (get_or held.now place 0) 0 (holding_plan n place) (keeping n Notice.Nothing (Some (header_of Kind.Ack n.local n.remote n.delivered))) }
    {
        let answered = Plan::keep(
            n,
            Notice::Nothing,
            say(Kind::Ack, n.local, n.remote, n.delivered),
        );
        if held[place] != 0 {
            return answered;
        }
        Plan {
            held: Places::Join(place),
            ..answered
        }
    }

    // Whether the plan leaves an end of these numbers as it is: the waiting blocks change only with their count, so that nothing else is compared. A frame
    // whose plan does, and sends nothing, is passed over.
    #[tactic(auto, unfolding(crate::specs::Internal::same_numbers, crate::specs::Internal::staying))]
    pub fn leaves_alone(self, n: Numbers) -> bool
        ensures { result ≡ leaves_alone self n }
    {
        (self.numbers == n) & matches!(self.held, Places::Keep)
    }

    // Writes what the plan sends at the start of out, and answers its length. joined is the block that joins, if one does, oldest the first of the
    // waiting blocks.
    pub fn send<'a>(self, joined: &'a [u8], oldest: &'a [u8], out: &mut [u8]) -> usize
        requires { (longest_frame ≤ length out.old) × ((length oldest.now ≤ longest_block) × (length joined.now ≤ longest_block)) }
        ensures { Sends (sent_by self.reply (block_out self.queue joined.now oldest.now)) out.old out.new result }
    {
        match self.reply {
            None => 0,
            Some(header) => frame::write(header, block_out(self.queue, joined, oldest), out),
        }
    }
}

// The block that goes out with a DATA: the one that joins, else the oldest.
fn block_out<'a>(queue: Places, joined: &'a [u8], oldest: &'a [u8]) -> &'a [u8]
    ensures { result.now ≡ block_out queue joined.now oldest.now }
{
    match queue {
        Places::Join(_) => joined,
        _ => oldest,
    }
}

// The block that a notice tells of, that of the frame received; empty where none is handed up.
#[tactic(auto, using(octets::proofs::Test::eq_yes, octets::proofs::Test::eq_no), unfolding(crate::specs::Internal::block_by))]
pub fn handed_up(notice: Notice, block: &[u8]) -> &[u8]
    ensures { result.now ≡ block_by (told_notice notice) block.now }
{
    match notice {
        Notice::HandedUp => block,
        _ => &[],
    }
}

// The block handed up, of so many octets: the start of the frame's block; of a request, the start of up.
#[tactic(auto, unfolding(call_spec::specs::Answers::block_part))]
pub fn block_part<'a>(call: Call, block: &'a [u8], up: &'a [u8], n: usize) -> &'a [u8]
    requires { length (block_part call block.now up.now n) ≡ n }
    ensures { result.now ≡ block_part call block.now up.now n }
{
    match call {
        Call::Request => &up[..n],
        Call::Receive => &block[..n],
    }
}
