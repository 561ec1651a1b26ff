// The places of blocks in a record, of those that wait and of those held: what a plan makes of them, what it sends from them, and what it hands up.
#![tactic(auto)]

ghost use Rattle.std.specs.Prelude.{◌≡◌, true, ◌++◌, ◌+◌, ◌*◌, ◌≤◌, ◌<◌, length, get_or, take, drop, replicate};
ghost use Rattle.octets.specs.Sizes.{longest_frame, longest_block, queue_size, held_size};
ghost use Rattle.octets.specs.Octets.{put};
ghost use Rattle.call_spec.specs.declared.Call.TheVariants.{Request};
ghost use Rattle.step_plan.specs.declared.Places.TheVariants.{Keep, Clear};
ghost use Rattle.step_plan.specs.Internal.{told_notice, block_by, block_out, sent_by, Sends};
ghost use Rattle.endpoint.specs.View.{place_block};
ghost use Rattle.endpoint_places.specs.Internal.{places_after, PlaceFor, block_from, Handy, HandsUp};

use call_spec::Call;
use endpoint::{Endpoint, Slots};
use step_plan::{Notice, Places, Plan};

// Sends the frame of a plan for a record in which these blocks wait, and answers its length.
pub fn send<'a>(p: Plan, joined: &'a [u8], queue: Slots<'a>, out: &mut [u8]) -> usize
    requires { (get_or queue.lengths.now 0 0 ≤ longest_block) × ((length joined.now ≤ longest_block) × (longest_frame ≤ length out.old)) }
    ensures { Sends (sent_by p.reply (block_out p.queue joined.now (place_block queue.entry.lengths.now queue.entry.blocks.now 0))) out.old out.new result }
{
    p.send(joined, queue.first(), out)
}

// The first places leave: the others move to the front, and zeros follow.
fn drop_front(gone: usize, width: usize, d: &mut [u8])
    requires { (gone ≤ queue_size) × ((width ≤ longest_block) × (length d.old ≡ queue_size * width)) }
    ensures { d.new ≡ drop (gone * width) d.old ++ replicate (gone * width) 0 }
{
    if gone == 0 {
        return;
    }
    let from = gone * width;
    let kept = d.len() - from;
    d.copy_within(from.., 0);
    clear(&mut d[kept..]);
}

// All of d is written afresh, as zeros.
pub fn clear(d: &mut [u8])
    ensures { d.new ≡ replicate (length d.old) 0 }
{
    d.fill(0);
}

// Does every place stay, of the blocks that wait and of those held? A yes spares the caller to look at each; a no is always right.
pub fn keeps(queue: Places, held: Places) -> bool
    ensures { result ≡ true → (queue ≡ Keep) × (held ≡ Keep) }
{
    matches!(queue, Places::Keep) && matches!(held, Places::Keep)
}

// Is every place written afresh, in a plan that leaves this state? A no is always right. No place of an end that stays open is: asked first,
// that spares its calls the rest.
pub fn clears(state: u8, queue: Places, held: Places) -> bool
    ensures { result ≡ true → (queue ≡ Clear) × (held ≡ Clear) }
{
    state != step_rules::ESTABLISHED
        && (matches!(queue, Places::Clear) && matches!(held, Places::Clear))
}

// What a plan makes of places of so many octets, of blocks or of their lengths; s joins.
#[tactic(auto, unfolding(crate::specs::Internal::places_after))]
pub fn change_places(places: Places, width: usize, s: &[u8], d: &mut [u8])
    requires { PlaceFor places width s.now d.old }
    ensures { d.new ≡ places_after places width s.now d.old }
{
    match places {
        Places::Keep => {}
        Places::Join(i) => octets::copy(d, i * width, s),
        Places::Release(gone) => drop_front(gone, width, d),
        Places::Clear => clear(d),
    }
}

// Copies the block that a request hands up to the start of up, and answers its length: the first of the held ones, with notice 5.
fn collect<'a>(notice: Notice, held: Slots<'a>, up: &mut [u8]) -> usize
    requires { told_notice notice ≡ 5 → (get_or held.lengths.now 0 0 ≤ longest_block) × (longest_block ≤ length up.old) }
    ensures { HandsUp Request (block_by (told_notice notice) (place_block held.entry.lengths.now held.entry.blocks.now 0)) up.old up.new result }
{
    match notice {
        Notice::HandedUp => {
            let block = held.first();
            octets::copy(up, 0, block);
            block.len()
        }
        _ => 0,
    }
}

// Hands up the block that a notice tells of, and answers its length: a request's is copied to up, one received stays where it is, in its frame.
#[tactic(auto, unfolding(crate::specs::Internal::block_from, crate::specs::Internal::handed_to))]
pub fn hand_up<'a>(
    call: Call,
    notice: Notice,
    held: Slots<'a>,
    block: &[u8],
    up: &mut [u8],
) -> usize
    requires { told_notice notice ≡ 5 → Handy call held.lengths.now (length up.old) }
    ensures { HandsUp call (block_by (told_notice notice) (block_from call held.entry.lengths.now held.entry.blocks.now block.now)) up.old up.new result }
{
    match call {
        Call::Request => collect(notice, held, up),
        Call::Receive => step_plan::handed_up(notice, block).len(),
    }
}
