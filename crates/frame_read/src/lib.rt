// Reading octets as a frame or a request, questions 3 to 7, and cutting off its block.
#![tactic(auto)]

ghost use Rattle.std.specs.Prelude.{◌≡◌, [], ◌∷◌, ℕ, ◌+◌, ◌-◌, ◌≤◌, leb, eqb, length, drop, get_or};
ghost use Rattle.octets.specs.Test.{when, first, refused, ok, mapped};
ghost use Rattle.octets.specs.Refusal.{told, refusal_in};
ghost use Rattle.frame.specs.Frame.{Frame};
ghost use Rattle.frame.specs.Read.{kind_of, number_at, block_at, cut_block, frame_at, count_ok, numbers_ok, readable, size_questions, read_frame_as, read_frame, read_request};
ghost use Rattle.frame.specs.Layout.{numbers_size, data_numbers};
ghost use Rattle.frame.specs.Answer.{class_of, kind_number, frame_of, request_of, request_number};

use frame::{
    ACK_NUMBERS, CONTROL_NUMBERS, Class, DATA_NUMBERS, Header, Kind, NUMBER, QUOTED, RequestKind,
    SEND_NUMBERS, SENDER,
};
use octets::Refusal;

// The largest number of a DATA.
const LAST_DATA: u32 = octets::LAST_NUMBER - 1;

// The first and the last octet of a frame, and of a request.
const CRAO: u8 = Kind::Crao as u8;

const ACK: u8 = Kind::Ack as u8;

const CONNECT: u8 = RequestKind::Connect as u8;

const COLLECT: u8 = RequestKind::Collect as u8;

// The octets that select a block: those of a DATA and of a send.
const DATA: u8 = Kind::Data as u8;

const SEND: u8 = RequestKind::Send as u8;

// What the first octet selects.
#[tactic(auto, using(frame::proofs::Classes::classes), unfolding(frame::specs::Read::kind_of))]
pub fn class_of(s: &[u8]) -> Option<Class>
    ensures { result ≡ class_of (kind_of s.now) }
{
    match *s.first()? {
        CRAO..=ACK => Some(Class::Frame),
        CONNECT..=COLLECT => Some(Class::Request),
        _ => None,
    }
}

// Question 5.
#[tactic(auto, unfolding(frame::specs::Read::count_ok, octets::specs::Test::in_range))]
pub fn count_ok(count: usize) -> bool
    ensures { result ≡ count_ok count }
{
    (1 <= count) & (count <= octets::LONGEST_BLOCK)
}

// What follows is over the kind and the octets after the head. Question 4 where no block follows.
#[tactic(auto, using(octets::proofs::Test::ladder))]
fn plain_refusal(size: usize, rest: &[u8]) -> Result<(), Refusal>
    ensures { refusal_in result ≡ first ((4, eqb (length rest.now) size) ∷ []) }
{
    if rest.len() != size {
        return Err(Refusal::BadSize);
    }
    Ok(())
}

// Questions 4 to 6 where a block follows its count octet: it is exactly as many octets as the count says.
#[tactic(auto, using(octets::proofs::Test::ladder))]
fn block_refusal(size: usize, rest: &[u8]) -> Result<(), Refusal>
    requires { (1 ≤ size) × (size ≤ data_numbers) }
    ensures { (let count : ℕ = get_or rest.now (size - 1) 0 in refusal_in result ≡ first ((4, leb size (length rest.now)) ∷ (5, count_ok count) ∷ (6, eqb (length rest.now) (size + count)) ∷ [])) }
{
    if rest.len() < size {
        return Err(Refusal::BadSize);
    }
    let count = usize::from(rest[size - 1]);
    if !count_ok(count) {
        return Err(Refusal::BadCount);
    }
    if rest.len() != size + count {
        return Err(Refusal::BadBlock);
    }
    Ok(())
}

// Questions 4 to 6 of a frame.
fn frame_refusal(kind: Kind, rest: &[u8]) -> Result<(), Refusal>
    ensures { refusal_in result ≡ first (size_questions (kind_number kind) rest.now) }
{
    match kind {
        Kind::Data => block_refusal(DATA_NUMBERS, rest),
        Kind::Ack => plain_refusal(ACK_NUMBERS, rest),
        _ => plain_refusal(CONTROL_NUMBERS, rest),
    }
}

// Questions 4 to 6 of a request.
fn request_refusal(kind: RequestKind, rest: &[u8]) -> Result<(), Refusal>
    ensures { refusal_in result ≡ first (size_questions (request_number (request_of kind [])) rest.now) }
{
    match kind {
        RequestKind::Send => block_refusal(SEND_NUMBERS, rest),
        _ => plain_refusal(0, rest),
    }
}

// Question 7.
fn numbers_ok(kind: Kind, sender: u32, quoted: u32, number: u32) -> bool
    ensures { result ≡ numbers_ok (kind_number kind) sender quoted number }
{
    ((1 <= sender) | ((kind == Kind::Rej) | (kind == Kind::Drack)))
        & (((1 <= quoted) | (kind == Kind::Crao)) & ((number <= LAST_DATA) | !(kind == Kind::Data)))
}

// The frame whose questions 3 to 6 are passed.
fn frame_of(kind: Kind, number: u32, rest: &[u8]) -> Result<Header, Refusal>
    requires { (numbers_size (kind_number kind) ≤ length rest.now) × (number ≡ number_at 2 (kind_number kind) rest.now) }
    ensures { (let f : Frame = frame_at (kind_number kind) rest.now in mapped (λ h. frame_of h (block_at (kind_number kind) rest.now)) (told result) ≡ when (readable f) (ok f) (refused 7)) }
{
    let sender = octets::load32(rest, SENDER);
    let quoted = octets::load32(rest, QUOTED);
    if !numbers_ok(kind, sender, quoted, number) {
        return Err(Refusal::BadNumber);
    }
    Ok(Header {
        kind,
        sender,
        quoted,
        number,
    })
}

// A frame whose kind is known; one that has two numbers only has 0 for the third.
fn known_frame(kind: Kind, rest: &[u8]) -> Result<Header, Refusal>
    ensures { mapped (λ h. frame_of h (block_at (kind_number kind) rest.now)) (told result) ≡ read_frame_as (kind_number kind) rest.now }
{
    frame_refusal(kind, rest)?;
    match kind {
        Kind::Data | Kind::Ack => frame_of(kind, octets::load32(rest, NUMBER), rest),
        _ => frame_of(kind, 0, rest),
    }
}

// Reads any octets as a frame.
pub fn read_frame(s: &[u8]) -> Result<Header, Refusal>
    ensures { mapped (λ h. frame_of h (cut_block s.now)) (told result) ≡ read_frame s.now }
{
    let [first, rest @ ..] = s else {
        return Err(Refusal::UnknownKind);
    };
    known_frame(Kind::try_from(*first)?, rest)
}

// Reads any octets as a request. No generic reader serves both: they share the taking of the first octet alone, and differ in every question after it.
pub fn read_request(s: &[u8]) -> Result<RequestKind, Refusal>
    ensures { mapped (λ q. request_of q (cut_block s.now)) (told result) ≡ read_request s.now }
{
    let [first, rest @ ..] = s else {
        return Err(Refusal::UnknownKind);
    };
    let kind = RequestKind::try_from(*first)?;
    request_refusal(kind, rest)?;
    Ok(kind)
}

// The octets of s after the first n.
fn after(s: &[u8], n: usize) -> &[u8]
    ensures { result.now ≡ drop n s.now }
{
    s.get(n..).unwrap_or(&[])
}

// Cuts off the block that octets end with, as their kind says.
pub fn cut_block(s: &[u8]) -> &[u8]
    ensures { result.now ≡ cut_block s.now }
{
    let [first, rest @ ..] = s else {
        return &[];
    };
    match *first {
        DATA => after(rest, DATA_NUMBERS),
        SEND => after(rest, SEND_NUMBERS),
        _ => &[],
    }
}
