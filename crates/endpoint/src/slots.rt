// Eight places for blocks where they lie.
ghost use Rattle.std.specs.Prelude.{◌≡◌, ◌+◌, ◌≤◌, length, get_or, take, drop};
ghost use Rattle.octets.specs.Sizes.{longest_block, queue_size};
ghost use Rattle.endpoint.specs.View.{places_size, place_block};

use crate::PLACES_SIZE;

// The lengths of eight blocks, and their octets: each in a place of 64.
#[derive(Clone, Copy)]
pub struct Slots<'a> {
    pub lengths: &'a [u8; octets::QUEUE_SIZE],
    pub blocks: &'a [u8; PLACES_SIZE],
    pub ghost eight_lengths: { length lengths.now ≡ queue_size },
    pub ghost eight_blocks: { length blocks.now ≡ places_size },
}

impl<'a> Slots<'a> {
    // Those in the octets of s from at: the lengths, then the blocks.
    pub fn load(s: &'a [u8], at: usize) -> Slots<'a>
        requires { at + queue_size + places_size ≤ length s.now }
        ensures { (result.lengths.now ≡ take queue_size (drop at s.now)) × (result.blocks.now ≡ take places_size (drop (at + queue_size) s.now)) }
    {
        let blocks_at = at + octets::QUEUE_SIZE;
        Slots {
            lengths: s[at..blocks_at].as_array().unwrap(),
            blocks: s[blocks_at..blocks_at + PLACES_SIZE].as_array().unwrap(),
        }
    }

    // The block of the first place.
    #[tactic(auto, unfolding(crate::specs::View::place_block))]
    pub fn first(self) -> &'a [u8]
        requires { get_or self.lengths.now 0 0 ≤ longest_block }
        ensures block { result.now ≡ place_block self.entry.lengths.now self.entry.blocks.now 0 }
        ensures len { length result.now ≡ get_or self.entry.lengths.now 0 0 }
    {
        let count = usize::from(self.lengths[0]);
        let blocks = self.blocks;
        &blocks[..count]
    }
}
