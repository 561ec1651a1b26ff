// The record of one end of a connection: a struct, question 12, and its octets.
#![tactic(auto)]

mod slots;

ghost use Rattle.std.specs.Prelude.{◌≡◌, ◌&&◌, ◌+◌, ◌-◌, ◌≤◌, ◌<◌, length, take, drop};
ghost use Rattle.octets.specs.Sizes.{longest_block, queue_size, held_size, last_number, page_size};
ghost use Rattle.octets.specs.Test.{zeros};
ghost use Rattle.octets.specs.Octets.{put, octets_of};
ghost use Rattle.protocol.specs.Endpoint as abstract;
ghost use Rattle.protocol.specs.Endpoint.{all_of, numbers_sound, held_sound};
ghost use Rattle.protocol.specs.Restart.{restarted};
ghost use Rattle.endpoint.specs.View.{places_size, pack};
ghost use Rattle.endpoint.specs.Sound.{unused_ok, sound};
ghost use Rattle.endpoint.specs.Record.{record_size, encode, decode};
ghost use Rattle.endpoint.specs.Internal.{place_ok, places_ok, whole, numbers_of, numbers_in};

pub use slots::Slots;
use step_rules::{CLOSED, CLOSING, ESTABLISHED, LISTENING, Numbers, PASSIVE_OPENING};

// The octets of eight places, which are one flat array: 512.
pub const PLACES_SIZE: usize = octets::QUEUE_SIZE * octets::LONGEST_BLOCK;

// The places of the record in its octets: state, L, D, t, e, w, lengths, blocks; then the lengths and the blocks of what is held.
const STATE_AT: usize = 0;

const LOCAL_AT: usize = STATE_AT + 1;

const REMOTE_AT: usize = LOCAL_AT + 4;

const ACCEPTED_AT: usize = REMOTE_AT + 4;

const DELIVERED_AT: usize = ACCEPTED_AT + 4;

pub const WAITING_AT: usize = DELIVERED_AT + 4;

pub const LENGTHS_AT: usize = WAITING_AT + 1;

pub const BLOCKS_AT: usize = LENGTHS_AT + octets::QUEUE_SIZE;

pub const HELD_LENGTHS_AT: usize = BLOCKS_AT + PLACES_SIZE;

pub const HELD_BLOCKS_AT: usize = HELD_LENGTHS_AT + octets::HELD_SIZE;

// 1,058 in all.
pub const RECORD_SIZE: usize = HELD_BLOCKS_AT + PLACES_SIZE;

// Document 01's record of an end: L and D are local and remote, t is accepted, e is delivered, w is waiting. N2: the held places are
// those of the numbers e to e + 7, and a length of 0 is none.
#[derive(Clone, Copy)]
pub struct Endpoint {
    // A number and no enum: a record of any octets is loaded before question 12 is asked of it, and sound speaks of all 256.
    pub state: u8,
    pub local: u32,
    pub remote: u32,
    pub accepted: u32,
    pub delivered: u32,
    pub waiting: u8,
    // Lengths beside blocks, as in the record's octets (encode, decode), so that the same code (Slots) reads both.
    pub lengths: [u8; octets::QUEUE_SIZE],
    pub blocks: [u8; PLACES_SIZE],
    pub held_lengths: [u8; octets::HELD_SIZE],
    pub held_blocks: [u8; PLACES_SIZE],
}

impl Endpoint {
    // The most blocks that wait.
    pub const QUEUE_SIZE: usize = octets::QUEUE_SIZE;

    pub const LONGEST_BLOCK: usize = octets::LONGEST_BLOCK;

    pub const LONGEST_FRAME: usize = octets::LONGEST_FRAME;

    // A fresh end: closed, both numbers 0.
    pub fn fresh() -> Endpoint
        ensures { result ≡ pack abstract.fresh }
    {
        Endpoint {
            state: CLOSED,
            local: 0,
            remote: 0,
            accepted: 0,
            delivered: 0,
            waiting: 0,
            lengths: [0; octets::QUEUE_SIZE],
            blocks: [0; PLACES_SIZE],
            held_lengths: [0; octets::HELD_SIZE],
            held_blocks: [0; PLACES_SIZE],
        }
    }

    // An end after a restart, on a page with so many octets of 00: closed, with the last number that they reserve.
    pub fn restarted(used: usize) -> Endpoint
        requires { used ≤ page_size }
        ensures { result ≡ pack (restarted used) }
    {
        let mut e = Endpoint::fresh();
        e.local = used as u32 * octets::NUMBERS_EACH;
        e
    }

    // Its parts, where they lie.
    pub fn parts<'a>(&'a self) -> Parts<'a>
        ensures { whole result ≡ self.now }
    {
        Parts {
            numbers: Numbers::from(*self),
            queue: Slots {
                lengths: &self.lengths,
                blocks: &self.blocks,
            },
            held: Slots {
                lengths: &self.held_lengths,
                blocks: &self.held_blocks,
            },
        }
    }
}

impl From<Endpoint> for Numbers {
    ghost use Rattle.endpoint.specs.Internal.{numbers_of};

    ghost from_gives = { λ e n. n ≡ numbers_of e };

    fn from(e: Endpoint) -> Numbers {
        Numbers {
            state: e.state,
            local: e.local,
            remote: e.remote,
            accepted: e.accepted,
            delivered: e.delivered,
            waiting: e.waiting,
        }
    }
}

// Question 12, a part at a time: the numbers. Most records are in open, where four tests are left; outside it nothing waits, so that w ≤ 8 and
// w ≤ t ask no test.
fn numbers_ok(n: Numbers) -> bool
    ensures { result ≡ all_of (numbers_sound n.state n.local n.remote n.accepted n.delivered n.waiting) }
{
    let waiting = u32::from(n.waiting);
    if n.state == ESTABLISHED {
        return (waiting <= Endpoint::QUEUE_SIZE as u32)
            & ((waiting <= n.accepted) & ((1 <= n.local) & (1 <= n.remote)));
    }
    (n.state <= CLOSING)
        & (((LISTENING < n.state) | (n.remote == 0))
            & (((n.state == CLOSED) | (1 <= n.local))
                & (((n.state < PASSIVE_OPENING) | (1 <= n.remote))
                    & ((n.accepted == 0) & ((waiting == 0) & (n.delivered == 0))))))
}

// The octets from n on of the place that starts at at are 0. All 64 are looked at, and those before n let pass: the loop then has no branch
// and always the same length, and takes many octets at once.
fn rest_ok(n: u8, blocks: &[u8], at: usize) -> bool
    requires { at + longest_block ≤ length blocks.now }
    ensures { result ≡ zeros (take (longest_block - n) (drop (at + n) blocks.now)) }
{
    let mut ok = true;
    // Counted by hand, in an octet: as an index of the loop it is compared with n in 64 bits, measured with 141 instructions instead of 44.
    let mut j = 0;
    for x in &blocks[at..at + Endpoint::LONGEST_BLOCK] {
        ok = ok & ((j < n) | (*x == 0));
        j += 1;
    }
    ok
}

// Place i, where each of the first filled places has a block, and none from used on: a block is up to 64 long, and zeros follow it. A place
// without a block and one that a block fills are asked by themselves, since that is quicker.
fn place_ok<'a>(filled: usize, used: usize, places: Slots<'a>, i: usize) -> bool
    requires { i < queue_size }
    ensures { result ≡ place_ok filled used places.entry.lengths.now places.entry.blocks.now i }
{
    let n = usize::from(places.lengths[i]);
    let blocks = places.blocks;
    let at = i * Endpoint::LONGEST_BLOCK;
    if n == 0 {
        if i < filled {
            return false;
        }
        return octets::is_clear(&blocks[at..at + Endpoint::LONGEST_BLOCK]);
    }
    if used <= i {
        return false;
    }
    if Endpoint::LONGEST_BLOCK < n {
        return false;
    }
    if n == Endpoint::LONGEST_BLOCK {
        return true;
    }
    rest_ok(places.lengths[i], blocks, at)
}

#[tactic(auto, using(octets::proofs::Each::all_more, octets::proofs::Each::all_fail), unfolding(crate::specs::Internal::places_ok, octets::specs::Test::all_below))]
fn places_ok<'a>(filled: usize, used: usize, places: Slots<'a>) -> bool
    ensures { result ≡ places_ok filled used places.entry.lengths.now places.entry.blocks.now }
{
    for i in 0..octets::QUEUE_SIZE {
        if !place_ok(filled, used, places, i) {
            return false;
        }
    }
    true
}

// No held number, which is delivered + i at place i, is above 4294967294: the places from there on hold nothing.
fn held_numbers_ok(delivered: u32, lengths: &[u8; octets::HELD_SIZE]) -> bool
    ensures { result ≡ zeros (drop (last_number - delivered) lengths.now) }
{
    let left = (octets::LAST_NUMBER - delivered) as usize;
    if octets::HELD_SIZE <= left {
        return true;
    }
    octets::is_clear(&lengths[left..])
}

// The held places. Where nothing is held, all of them are unused: one run.
fn held_ok<'a>(state: u8, delivered: u32, held: Slots<'a>) -> bool
    ensures { result ≡ (all_of (held_sound state delivered held.entry.lengths.now) && unused_ok held.entry.lengths.now held.entry.blocks.now) }
{
    let lengths = held.lengths;
    let blocks = held.blocks;
    if octets::is_clear(lengths) {
        return octets::is_clear(blocks);
    }
    (state == ESTABLISHED)
        & (held_numbers_ok(delivered, lengths) & places_ok(0, octets::HELD_SIZE, held))
}

// The parts of a record, where they lie: its numbers, the places of the blocks that wait, and those of the held ones.
#[derive(Clone, Copy)]
pub struct Parts<'a> {
    pub numbers: Numbers,
    pub queue: Slots<'a>,
    pub held: Slots<'a>,
}

impl<'a> Parts<'a> {
    // Those of the record at the start of s.
    #[tactic(auto, unfolding(crate::specs::Record::decode))]
    pub fn load(s: &'a [u8]) -> Parts<'a>
        requires { record_size ≤ length s.now }
        ensures { whole result ≡ decode s.now }
    {
        Parts {
            numbers: load_numbers(s),
            queue: Slots::load(s, LENGTHS_AT),
            held: Slots::load(s, HELD_LENGTHS_AT),
        }
    }

    // Question 12: is the record of these parts sound?
    pub fn is_sound(self) -> bool
        ensures { result ≡ sound (whole self.entry) }
    {
        let n = self.numbers;
        if !numbers_ok(n) {
            return false;
        }
        let waiting = usize::from(n.waiting);
        places_ok(waiting, waiting, self.queue) & held_ok(n.state, n.delivered, self.held)
    }
}

// A record is lent at the start of a buffer that may be longer, and CalledLent of the calls on it speaks of every octet lent: so its octets stay a slice,
// here and in the crates above.
// The numbers of the record at the start of s.
pub fn load_numbers(s: &[u8]) -> Numbers
    requires { record_size ≤ length s.now }
    ensures { result ≡ numbers_of (decode s.now) }
{
    Numbers {
        state: s[STATE_AT],
        local: octets::load32(s, LOCAL_AT),
        remote: octets::load32(s, REMOTE_AT),
        accepted: octets::load32(s, ACCEPTED_AT),
        delivered: octets::load32(s, DELIVERED_AT),
        waiting: s[WAITING_AT],
    }
}

// Writes x into the four octets of d from at, where they do not hold it yet.
fn change32(d: &mut [u8], at: usize, x: u32)
    requires { at + 4 ≤ length d.old }
    ensures { d.new ≡ put d.old at (octets_of 4 x) }
{
    if octets::load32(d, at) == x {
        return;
    }
    octets::store32(d, at, x);
}

// Writes the numbers of a record at the start of out.
pub fn store_numbers(n: Numbers, out: &mut [u8])
    requires { record_size ≤ length out.old }
    ensures { out.new ≡ put out.old 0 (numbers_in n) }
{
    octets::store8(out, STATE_AT, n.state);
    change32(out, LOCAL_AT, n.local);
    change32(out, REMOTE_AT, n.remote);
    change32(out, ACCEPTED_AT, n.accepted);
    change32(out, DELIVERED_AT, n.delivered);
    octets::store8(out, WAITING_AT, n.waiting);
}

// Writes the record's octets at the start of out. No other octet of out changes.
pub fn encode(e: Endpoint, out: &mut [u8])
    requires { record_size ≤ length out.old }
    ensures { out.new ≡ put out.old 0 (encode e) }
{
    store_numbers(Numbers::from(e), out);
    octets::copy(out, LENGTHS_AT, &e.lengths);
    octets::copy(out, BLOCKS_AT, &e.blocks);
    octets::copy(out, HELD_LENGTHS_AT, &e.held_lengths);
    octets::copy(out, HELD_BLOCKS_AT, &e.held_blocks);
}
