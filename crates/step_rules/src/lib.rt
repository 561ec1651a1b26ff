// Which row of the step table applies to a frame: the rules in code, one method for a state.
#![tactic(auto, unfolding(protocol::specs::Table::when_closed, protocol::specs::Table::when_listening, protocol::specs::Table::when_active, protocol::specs::Table::when_passive, protocol::specs::Table::when_closing, protocol::specs::Table::data_row, protocol::specs::Table::ack_row, octets::specs::Test::if_eq, octets::specs::Test::if_lt, octets::specs::Test::when))]

ghost use Rattle.std.specs.Prelude.{◌≡◌, ◌≤◌, ◌-◌};
ghost use Rattle.protocol.specs.Table.{when_closed, when_listening, when_active, when_passive, data_row, ack_row, open_rows, when_established, when_closing, rule};
ghost use Rattle.step_rules.specs.Internal.{Chosen};

use frame::{Header, Kind};
use protocol::Rule;

// The states; document 01 calls 2 calling, 3 answering and 4 open. They stay numbers: a record of any octets is loaded before question 12 is asked
// of it, and sound and status_of speak of all 256 octets of a state.
pub const CLOSED: u8 = 0;

pub const LISTENING: u8 = 1;

pub const ACTIVE_OPENING: u8 = 2;

pub const PASSIVE_OPENING: u8 = 3;

pub const ESTABLISHED: u8 = 4;

pub const CLOSING: u8 = 5;

// The places for held blocks.
const HELD_SIZE: u32 = octets::HELD_SIZE as u32;

// The numbers of an endpoint: its record without the waiting blocks and the held ones. Equality compares all six without a branch between them. That w is
// at most t is asked where it is needed, and is no invariant: a record of any octets is loaded before question 12 is asked of it (endpoint::load_numbers).
#[derive(Clone, Copy, Debug, PartialEq, Eq)]
pub struct Numbers {
    pub state: u8,
    pub local: u32,
    pub remote: u32,
    pub accepted: u32,
    pub delivered: u32,
    pub waiting: u8,
}

impl Numbers {
    // The number of the oldest waiting block, or of the next one where none waits: t - w.
    pub fn oldest(self) -> u32
        requires { self.waiting ≤ self.accepted }
        ensures { result ≡ self.accepted - self.waiting }
    {
        self.accepted - u32::from(self.waiting)
    }
}

// The rows of each state, as the step table has them: quoted is that r = L, later that s > D.
impl Numbers {
    fn when_closed(self, f: Header) -> Rule
        ensures { Chosen when_closed self f result }
    {
        match f.kind {
            Kind::Crao | Kind::Crpo | Kind::Crack | Kind::Data | Kind::Ack => Rule::Refuse,
            Kind::Dr => Rule::AcceptDisconnect,
            _ => Rule::Ignore,
        }
    }

    fn when_listening(self, f: Header) -> Rule
        ensures { Chosen when_listening self f result }
    {
        match f.kind {
            Kind::Crao => Rule::Answer,
            Kind::Crpo => Rule::Reset,
            Kind::Dr => Rule::AcceptDisconnect,
            _ => Rule::Ignore,
        }
    }

    // Document 01: calling.
    fn when_active(self, f: Header) -> Rule
        ensures { Chosen when_active self f result }
    {
        let quoted = f.quoted == self.local;
        match f.kind {
            Kind::Crao | Kind::Crpo if quoted => Rule::OpenAndConfirm,
            Kind::Crao => Rule::CallAgain,
            Kind::Crack if quoted => Rule::Open,
            Kind::Rej if quoted => Rule::Rejected,
            Kind::Dr if quoted => Rule::RejectedByDisconnect,
            Kind::Dr => Rule::AcceptDisconnect,
            _ => Rule::Ignore,
        }
    }

    // Document 01: answering.
    fn when_passive(self, f: Header) -> Rule
        ensures { Chosen when_passive self f result }
    {
        let quoted = f.quoted == self.local;
        match f.kind {
            Kind::Crao => Rule::Answer,
            Kind::Crpo => Rule::Reset,
            Kind::Crack if quoted && f.sender == self.remote => Rule::Open,
            Kind::Rej | Kind::Reset if quoted => Rule::ListenAgain,
            Kind::Dr if quoted => Rule::ClosedByPartner,
            Kind::Dr => Rule::AcceptDisconnect,
            _ => Rule::Ignore,
        }
    }

    // Open, a DATA, by how far its number is above e.
    fn data_row(self, f: Header) -> Rule
        ensures { Chosen data_row self f result }
    {
        match f.number.checked_sub(self.delivered) {
            Some(0) => Rule::HandUp,
            Some(early) if early < HELD_SIZE => Rule::Hold,
            _ => Rule::Acknowledge,
        }
    }

    // Open, an ACK.
    fn ack_row(self, f: Header) -> Rule
        requires { self.waiting ≤ self.accepted }
        ensures { Chosen ack_row self f result }
    {
        if self.oldest() < f.number && f.number <= self.accepted {
            Rule::Release
        } else {
            Rule::Ignore
        }
    }

    // Document 01: open.
    #[tactic(auto, unfolding(protocol::specs::Table::open_rows, octets::specs::Test::if_eq, octets::specs::Test::if_lt, octets::specs::Test::when))]
    fn open_rows(self, f: Header) -> Rule
        requires { self.waiting ≤ self.accepted }
        ensures { Chosen open_rows self f result }
    {
        match f.kind {
            Kind::Crao | Kind::Crpo => Rule::Confirm,
            Kind::Dr => Rule::ClosedByPartner,
            Kind::Data => self.data_row(f),
            Kind::Ack => self.ack_row(f),
            _ => Rule::Ignore,
        }
    }

    // Only with s = D and r = L, but for REJ.
    #[tactic(auto, unfolding(protocol::specs::Table::when_established, protocol::specs::Table::open_rows, octets::specs::Test::if_eq, octets::specs::Test::if_lt, octets::specs::Test::when))]
    fn when_established(self, f: Header) -> Rule
        requires { self.waiting ≤ self.accepted }
        ensures { Chosen when_established self f result }
    {
        let quoted = f.quoted == self.local;
        match f.kind {
            Kind::Rej if quoted => Rule::ClosedByRejection,
            _ if quoted && f.sender == self.remote => self.open_rows(f),
            _ => Rule::Ignore,
        }
    }

    fn when_closing(self, f: Header) -> Rule
        ensures { Chosen when_closing self f result }
    {
        let quoted = f.quoted == self.local;
        let later = self.remote < f.sender;
        match f.kind {
            Kind::Dr if later || quoted => Rule::FinishedByDisconnect,
            Kind::Drack | Kind::Rej if quoted => Rule::Finished,
            Kind::Crao | Kind::Crpo if later => Rule::Finished,
            _ => Rule::Ignore,
        }
    }

    // The row that applies. If s < D, the frame is passed over in every state.
    #[tactic(auto, unfolding(protocol::specs::Table::rule, octets::specs::Test::if_eq, octets::specs::Test::if_lt, octets::specs::Test::when))]
    pub fn choose(self, f: Header) -> Rule
        requires { self.waiting ≤ self.accepted }
        ensures { Chosen rule self f result }
    {
        if f.sender < self.remote {
            return Rule::Ignore;
        }
        match self.state {
            CLOSED => self.when_closed(f),
            LISTENING => self.when_listening(f),
            ACTIVE_OPENING => self.when_active(f),
            PASSIVE_OPENING => self.when_passive(f),
            ESTABLISHED => self.when_established(f),
            CLOSING => self.when_closing(f),
            _ => Rule::Ignore,
        }
    }
}
