// An end's record of 1,058 octets where it lies, beside its page of 4,096: the questions that are asked of both, how the end stands, a refusal, and a restart.
#![tactic(auto)]

ghost use Rattle.std.specs.Prelude.{◌≡◌, ◌≤◌, length};
ghost use Rattle.octets.specs.Sizes.{page_size};
ghost use Rattle.octets.specs.Refusal.{refusal_number, refusal_in};
ghost use Rattle.octets.specs.Test.{first, refused, ok};
ghost use Rattle.endpoint.specs.Record.{record_size};
ghost use Rattle.lent_record.specs.Record.{format, paged_for, record_questions};
ghost use Rattle.lent_record.specs.Told.{status_of, stands, answer_of, Restarted};

use call_spec::Status;
use endpoint::{Endpoint, Parts};
use octets::Refusal;
use step_plan::Notice;

// The octets of a record.
pub const RECORD_SIZE: usize = endpoint::RECORD_SIZE;

// What a status tells where no question refuses, and where nothing has come about.
pub const SUCCESS: u8 = 0;

const NO_NOTICE: u8 = Notice::Nothing as u8;

// What a call on a lent record answers; sent is the length of the frame sent, block that of the block handed up. Either is 0 where there is none, as
// `answer_in` and C have it.
#[derive(Clone, Copy)]
pub struct Answer {
    pub status: Status,
    pub sent: usize,
    pub block: usize,
}

// Question 12 of a record.
pub fn is_sound(rec: &[u8]) -> bool
    requires { record_size ≤ length rec.now }
    ensures { result ≡ format.sound rec.now }
{
    Parts::load(rec).is_sound()
}

// Question 15 of a page beside a record.
#[tactic(auto, unfolding(endpoint::specs::Record::decode, endpoint::specs::View::view))]
pub fn is_paged(rec: &[u8], page: &[u8]) -> bool
    requires { (record_size ≤ length rec.now) × (page_size ≤ length page.now) }
    ensures { result ≡ paged_for rec.now page.now }
{
    let n = endpoint::load_numbers(rec);
    page::goes_with(n.local, page)
}

// Questions 11, 12 and 15 of a record and its page.
#[tactic(auto, using(octets::proofs::Test::ladder))]
pub fn ready(rec: &[u8], page: &[u8]) -> Result<(), Refusal>
    ensures { refusal_in result ≡ first (record_questions rec.now page.now) }
{
    if rec.len() < RECORD_SIZE {
        return Err(Refusal::ShortBuffer);
    }
    if page.len() < octets::PAGE_SIZE {
        return Err(Refusal::ShortBuffer);
    }
    if !is_sound(rec) {
        return Err(Refusal::Unsound);
    }
    if !is_paged(rec, page) {
        return Err(Refusal::WrongPage);
    }
    Ok(())
}

// How a record stands, told with a number: its state, L and D, and no notice.
#[tactic(auto, using(crate::proofs::Told::tells), unfolding(endpoint::specs::Record::decode))]
fn tell(rec: &[u8], number: u8) -> Status
    requires { record_size ≤ length rec.now }
    ensures { result ≡ status_of rec.now (refused number) }
{
    let n = endpoint::load_numbers(rec);
    Status {
        number,
        state: n.state,
        notice: NO_NOTICE,
        local: n.local,
        remote: n.remote,
    }
}

// How an end stands, which an empty line asks.
#[tactic(auto, using(crate::proofs::Standing::tells_standing))]
pub fn stands(rec: &[u8]) -> Status
    requires { record_size ≤ length rec.now }
    ensures { result ≡ status_of rec.now (ok (stands rec.now)) }
{
    tell(rec, SUCCESS)
}

// A refusal by any number tells how the record stands; all else is 0 where the buffer is too short for one.
#[tactic(auto, using(crate::proofs::Told::tells_short), unfolding(crate::specs::Told::answer_of, crate::specs::Told::sent_of, call_spec::specs::Answers::block_of))]
pub fn refuse(rec: &[u8], number: u8) -> Answer
    ensures { result ≡ answer_of rec.now (refused number) }
{
    if rec.len() < RECORD_SIZE {
        return Answer {
            status: Status {
                number,
                state: 0,
                notice: NO_NOTICE,
                local: 0,
                remote: 0,
            },
            sent: 0,
            block: 0,
        };
    }
    Answer {
        status: tell(rec, number),
        sent: 0,
        block: 0,
    }
}

// The answer to a call that is refused.
pub fn decline(rec: &[u8], refusal: Refusal) -> Answer
    ensures { result ≡ answer_of rec.now (refused (refusal_number refusal)) }
{
    refuse(rec, refusal.number())
}

// Restarts an end, which leaves its record as the page says: closed, with L = 16 times the count of 00. It neither looks at the record that it
// replaces nor stores in the page. On a new page that is a fresh end.
pub fn restart(rec: &mut [u8], page: &[u8]) -> Answer
    ensures { Restarted rec.old page.now rec.new result }
{
    if rec.len() < RECORD_SIZE {
        return decline(rec, Refusal::ShortBuffer);
    }
    if page.len() < octets::PAGE_SIZE {
        return decline(rec, Refusal::ShortBuffer);
    }
    if !page::is_run(page) {
        return decline(rec, Refusal::WrongPage);
    }
    let e = Endpoint::restarted(page::count_used(page));
    endpoint::encode(e, rec);
    Answer {
        status: Status {
            number: SUCCESS,
            state: e.state,
            notice: NO_NOTICE,
            local: e.local,
            remote: e.remote,
        },
        sent: 0,
        block: 0,
    }
}
