// The text of an answer: one line, then the frame sent, if there is one.
#![tactic(auto)]

ghost use Rattle.std.specs.Prelude.{◌+◌, ◌*◌, ◌≤◌, length};
ghost use Rattle.octets.specs.Sizes.{longest_frame, longest_block};
ghost use Rattle.answer_text.specs.Text.{as_line, answer_octets, answer_line, text_of, longest_answer, answer_room, StartsWith};

use call_spec::Status;

// Room for an answer: 153 characters for its line with the longest block, 157 for the line of the longest frame. An answer is written to what is free of a
// program's output, so that out stays a slice, here and in the crates above.
pub const ANSWER_ROOM: usize = 2 * LONGEST_ANSWER + 1 + 2 * octets::LONGEST_FRAME + 1;

// The octets of an answer line: its numbers, the count, the longest block.
const LONGEST_ANSWER: usize = BLOCK_AT + octets::LONGEST_BLOCK;

const NUMBERS_SIZE: usize = 11;

const BLOCK_AT: usize = NUMBERS_SIZE + 1;

const LINE_FEED: u8 = 10;

// Writes the octets of s as a line to the start of out.
fn write_line(s: &[u8], out: &mut [u8]) -> usize
    requires { 2 * length s.now + 1 ≤ length out.old }
    ensures { StartsWith (as_line s.now) out.old out.new result }
{
    hexadecimal::write(s, out);
    let n = 2 * s.len();
    octets::store8(out, n, LINE_FEED);
    n + 1
}

// Writes the octets of an answer line to the start of out.
fn tell(t: Status, block: &[u8], out: &mut [u8]) -> usize
    requires { (longest_answer ≤ length out.old) × (length block.now ≤ longest_block) }
    ensures { StartsWith (answer_octets t block.now) out.old out.new result }
{
    octets::store8(out, 0, t.number.wrapping_add(128));
    octets::store8(out, 1, t.state);
    octets::store8(out, 2, t.notice);
    octets::store32(out, 3, t.local);
    octets::store32(out, 7, t.remote);
    if block.is_empty() {
        return NUMBERS_SIZE;
    }
    octets::store8(out, NUMBERS_SIZE, block.len() as u8);
    octets::copy(out, BLOCK_AT, block);
    BLOCK_AT + block.len()
}

// Writes an answer line to the start of out.
pub fn write_answer(t: Status, block: &[u8], out: &mut [u8]) -> usize
    requires { (length block.now ≤ longest_block) × (length (answer_line t block.now) ≤ length out.old) }
    ensures { StartsWith (answer_line t block.now) out.old out.new result }
{
    let mut octets = [0u8; LONGEST_ANSWER];
    let n = tell(t, block, &mut octets);
    write_line(&octets[..n], out)
}

// Writes the text of an answer to the start of out: the answer line, and the line of the frame sent, if there is one.
pub fn write_text(t: Status, block: &[u8], sent: &[u8], out: &mut [u8]) -> usize
    requires { (answer_room ≤ length out.old) × ((length block.now ≤ longest_block) × (length sent.now ≤ longest_frame)) }
    ensures { StartsWith (text_of t block.now sent.now) out.old out.new result }
{
    let m = write_answer(t, block, out);
    if sent.is_empty() {
        return m;
    }
    let k = write_line(sent, &mut out[m..]);
    m + k
}
