// Questions 11, 12 and 15 of all that is lent to the bench, and the end that a logged frame is for.
#![tactic(auto)]

ghost use Rattle.std.specs.Prelude.{◌≡◌, ◌-◌, ◌≤◌, ◌<◌, ◌&&◌, ◌==◌, true, leb, length};
ghost use Rattle.octets.specs.Sizes.{page_size};
ghost use Rattle.octets.specs.Refusal.{refusal_in};
ghost use Rattle.octets.specs.Test.{when, first};
ghost use Rattle.page.specs.Page.{runs};
ghost use Rattle.call_spec.specs.Calls.{rooms};
ghost use Rattle.call_spec.specs.Claim.{lent};
ghost use Rattle.protocol.specs.Endpoint.{all_of};
ghost use Rattle.endpoint.specs.Record.{record_size};
ghost use Rattle.lent_record.specs.Record.{format, paged_for};
ghost use Rattle.bench_log.specs.Log.{places, log_size, sender_at};
ghost use Rattle.bench_spec.specs.Bench.{bench_of, end_number, restarted_number};
ghost use Rattle.bench_checks.specs.Ready.{lent_in, bench_in, ready_questions};
ghost use Rattle.bench_checks.specs.Internal.{Long, room_tests, sound_tests, page_tests};

use bench_spec::End;
use octets::Refusal;

// What is lent of an end: its record and its page.
#[derive(Clone, Copy)]
pub struct LentEnd<'a> {
    pub rec: &'a [u8],
    pub page: &'a [u8],
}

// What is lent of the bench: its ends, the log, and how many places of it are in use.
#[derive(Clone, Copy)]
pub struct LentBench<'a> {
    pub a: LentEnd<'a>,
    pub b: LentEnd<'a>,
    pub log: &'a [u8],
    pub count: usize,
}

impl LentEnd<'_> {
    // Question 11 of an end.
    fn has_room(self) -> bool
        ensures { result ≡ (leb record_size (length self.entry.rec.now) && leb page_size (length self.entry.page.now)) }
    {
        (lent_record::RECORD_SIZE <= self.rec.len()) & (octets::PAGE_SIZE <= self.page.len())
    }

    // Question 12 of its record, which is not asked of an end that is restarted.
    #[tactic(auto, unfolding(octets::specs::Test::when))]
    fn is_sound(self, restarted: bool) -> bool
        requires { Long (lent_in self) }
        ensures { result ≡ when restarted true (format.sound self.entry.rec.now) }
    {
        restarted || lent_record::is_sound(self.rec)
    }

    // Question 15 of its page, where the record of an end that is restarted does not count.
    #[tactic(auto, unfolding(octets::specs::Test::when))]
    fn is_paged(self, restarted: bool) -> bool
        requires { Long (lent_in self) }
        ensures { result ≡ when restarted (runs self.entry.page.now) (paged_for self.entry.rec.now self.entry.page.now) }
    {
        if restarted {
            page::is_run(self.page)
        } else {
            lent_record::is_paged(self.rec, self.page)
        }
    }
}

// Is it this end that is restarted?
fn restarts(restarted: Option<End>, end: End) -> bool
    ensures { result ≡ (restarted_number restarted == end_number end) }
{
    restarted == Some(end)
}

impl<'a> LentBench<'a> {
    // The records a and b and their pages, the log, and so many places of it in use: one by one, as C lends them.
    pub fn new(
        a: &'a [u8],
        b: &'a [u8],
        a_page: &'a [u8],
        b_page: &'a [u8],
        log: &'a [u8],
        count: usize,
    ) -> LentBench<'a>
        ensures { bench_in result ≡ bench_of (lent a.now a_page.now) (lent b.now b_page.now) log.now count }
    {
        LentBench {
            a: LentEnd {
                rec: a,
                page: a_page,
            },
            b: LentEnd {
                rec: b,
                page: b_page,
            },
            log,
            count,
        }
    }
}

impl LentBench<'_> {
    // Question 11 of all that is lent.
    #[tactic(auto, unfolding(protocol::specs::Endpoint::all_of))]
    fn has_room(self, room: usize, block_room: usize) -> bool
        ensures { result ≡ all_of (room_tests (bench_in self.entry) (rooms room block_room)) }
    {
        self.a.has_room()
            & (self.b.has_room()
                & ((bench_log::LOG_SIZE <= self.log.len())
                    & ((octets::LONGEST_FRAME <= room) & (octets::LONGEST_BLOCK <= block_room))))
    }

    // Question 12 of both records and of the count.
    #[tactic(auto, unfolding(protocol::specs::Endpoint::all_of))]
    fn is_sound(self, restarted: Option<End>) -> bool
        requires { Long (lent_in self.a) × Long (lent_in self.b) }
        ensures { result ≡ all_of (sound_tests (restarted_number restarted) (bench_in self.entry)) }
    {
        self.a.is_sound(restarts(restarted, End::A))
            & (self.b.is_sound(restarts(restarted, End::B)) & (self.count <= bench_log::PLACES))
    }

    // Question 15 of both pages.
    #[tactic(auto, unfolding(protocol::specs::Endpoint::all_of))]
    fn is_paged(self, restarted: Option<End>) -> bool
        requires { Long (lent_in self.a) × Long (lent_in self.b) }
        ensures { result ≡ all_of (page_tests (restarted_number restarted) (bench_in self.entry)) }
    {
        self.a.is_paged(restarts(restarted, End::A)) & self.b.is_paged(restarts(restarted, End::B))
    }
}

// Questions 11, 12 and 15 of all that is lent, with room for so many octets of a frame and of a block, where this end is restarted. The two lengths stay two
// parameters: they are asked here, once, and handed on to nobody.
pub fn ready(
    restarted: Option<End>,
    bench: LentBench,
    room: usize,
    block_room: usize,
) -> Result<(), Refusal>
    ensures { refusal_in result ≡ first (ready_questions (restarted_number restarted) (bench_in bench.entry) (rooms room block_room)) }
{
    if !bench.has_room(room, block_room) {
        return Err(Refusal::ShortBuffer);
    }
    if !bench.is_sound(restarted) {
        return Err(Refusal::Unsound);
    }
    if !bench.is_paged(restarted) {
        return Err(Refusal::WrongPage);
    }
    Ok(())
}

// The end that frame n of the log is for: the one that did not send it.
pub fn receiver_of(log: &[u8], n: usize) -> End
    requires { (log_size ≤ length log.now) × (n < places) }
    ensures { end_number result ≡ 1 - sender_at n log.now }
{
    match bench_log::sender_of(log, n) {
        0 => End::B,
        _ => End::A,
    }
}
