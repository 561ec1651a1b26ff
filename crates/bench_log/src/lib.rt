// The log of sent frames, in 512 places of 80 octets.
#![tactic(auto)]

ghost use Rattle.std.specs.Prelude.{◌≡◌, ◌*◌, ◌≤◌, ◌<◌, length};
ghost use Rattle.octets.specs.Sizes.{longest_frame};
ghost use Rattle.octets.specs.Octets.{put};
ghost use Rattle.bench_log.specs.Log.{place_size, places, log_size, sender_at, length_at, frame_logged, holds, place};

// The log is lent at the start of a buffer that may be longer, and BenchAnswered and LinePerformed speak of every octet of it: so it stays a slice. A sender
// stays an octet: it may be any until question 13 is asked (holds), and C lends the log.
// The octets of a place, the places, and the octets of all.
pub const PLACE_SIZE: usize = FRAME_AT + octets::LONGEST_FRAME;

// The frame of a place stands after its sender and its length.
pub const FRAME_AT: usize = 2;

pub const PLACES: usize = 512;

pub const LOG_SIZE: usize = PLACES * PLACE_SIZE;

const SHORTEST_FRAME: u8 = 9;

// Question 13: does the log hold frame n, with a sender octet 0 or 1 and a length of 9 to 78?
#[tactic(auto, unfolding(crate::specs::Log::holds, crate::specs::Log::sender_at, crate::specs::Log::length_at, octets::specs::Test::in_range))]
pub fn holds(log: &[u8], count: usize, n: usize) -> bool
    requires { (log_size ≤ length log.now) × (count ≤ places) }
    ensures { result ≡ holds count n log.now }
{
    if n >= count {
        return false;
    }
    let at = n * PLACE_SIZE;
    let length = log[at + 1];
    (log[at] <= 1) & ((SHORTEST_FRAME <= length) & (length <= octets::LONGEST_FRAME as u8))
}

// The sender of frame n, and the frame, a part of the log. The sender is the octet as it stands: until question 13 is passed it may be any of 256.
#[tactic(auto, unfolding(crate::specs::Log::sender_at))]
pub fn sender_of(log: &[u8], n: usize) -> u8
    requires { (log_size ≤ length log.now) × (n < places) }
    ensures { result ≡ sender_at n log.now }
{
    log[n * PLACE_SIZE]
}

#[tactic(auto, unfolding(crate::specs::Log::length_at, crate::specs::Log::frame_logged))]
pub fn frame_of(log: &[u8], n: usize) -> &[u8]
    requires { (log_size ≤ length log.now) × ((n < places) × (length_at n log.now ≤ longest_frame)) }
    ensures { result.now ≡ frame_logged n log.now }
{
    let at = n * PLACE_SIZE + FRAME_AT;
    let end = at + usize::from(log[n * PLACE_SIZE + 1]);
    &log[at..end]
}

// Writes a frame into place n, whole: sender, length, frame, zeros.
pub fn enter(log: &mut [u8], n: usize, sender: u8, frame: &[u8])
    requires { (log_size ≤ length log.old) × ((n < places) × (length frame.now ≤ longest_frame)) }
    ensures { log.new ≡ put log.old (n * place_size) (place sender frame.now) }
{
    let mut place = [0u8; PLACE_SIZE];
    place[0] = sender;
    place[1] = frame.len() as u8;
    place[FRAME_AT..FRAME_AT + frame.len()].copy_from_slice(frame);
    let at = n * PLACE_SIZE;
    log[at..at + PLACE_SIZE].copy_from_slice(&place);
}
