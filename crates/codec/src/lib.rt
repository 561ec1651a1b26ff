// The codec in numbers and byte slices, for the comparison with the reference alone: no part of the library for C.
#![tactic(auto)]

ghost use Rattle.std.specs.Prelude.{◌≡◌};
ghost use Rattle.octets.specs.Octets.{left};
ghost use Rattle.octets.specs.Refusal.{told};
ghost use Rattle.octets.specs.Test.{mapped, number_of};
ghost use Rattle.hexadecimal.specs.Line.{read_into};
ghost use Rattle.frame.specs.Read.{cut_block, read_input};
ghost use Rattle.frame.specs.Answer.{meant};
ghost use Rattle.codec.specs.Calls.{WritesOctets, write_line, numbers_of, read_known, shown, BlockTold, write_frame};

use frame::{Class, Header, Kind, Message};
use octets::Refusal;

// Reads a line into out, which has room for the longest frame; the count of its octets goes to length.
#[unsafe(no_mangle)]
pub extern "C" fn codec_read_line(line: &[u8], out: &mut [u8], length: &mut usize) -> u8
    ensures { WritesOctets (read_into line.now out.old) out.old out.new length.old length.new result }
{
    match hexadecimal::read(line, out) {
        Ok(n) => {
            *length = n;
            0
        }
        Err(refusal) => refusal.number(),
    }
}

// Writes the octets of s as a line to the start of out.
#[unsafe(no_mangle)]
pub extern "C" fn codec_write_line(s: &[u8], out: &mut [u8]) -> u8
    ensures { (result ≡ number_of (write_line s.now out.old)) × (out.new ≡ left (write_line s.now out.old) out.old) }
{
    if out.len() / 2 < s.len() {
        return Refusal::ShortBuffer.number();
    }
    hexadecimal::write(s, out);
    0
}

// What a call knows: an octet, since C gives it (codec_read).
const FRAMES: u8 = 1;

const REQUESTS: u8 = 2;

const BOTH: u8 = 3;

// Reads any octets as a request, or else as a frame.
fn read_input(s: &[u8]) -> Result<Message, Refusal>
    ensures { mapped (λ m. meant m (cut_block s.now)) (told result) ≡ read_input s.now }
{
    match frame_read::class_of(s) {
        Some(Class::Frame) => frame_read::read_frame(s).map(Message::Frame),
        Some(Class::Request) => frame_read::read_request(s).map(Message::Request),
        None => Err(Refusal::UnknownKind),
    }
}

fn read_known(known: u8, s: &[u8]) -> Result<Message, Refusal>
    ensures { mapped (λ m. meant m (cut_block s.now)) (told result) ≡ read_known known s.now }
{
    match known {
        FRAMES => frame_read::read_frame(s).map(Message::Frame),
        REQUESTS => frame_read::read_request(s).map(Message::Request),
        BOTH => read_input(s),
        _ => Err(Refusal::UnknownKind),
    }
}

// Reads octets by a call that knows frames (1), requests (2) or both (3). The kind and the numbers go to the next four, the length
// of the block, which is the end of s, to the last.
#[unsafe(no_mangle)]
pub extern "C" fn codec_read(
    known: u8,
    s: &[u8],
    kind: &mut u8,
    sender: &mut u32,
    quoted: &mut u32,
    number: &mut u32,
    block: &mut usize,
) -> u8
    ensures answer { result ≡ number_of (read_known known s.now) }
    ensures numbers { numbers_of kind.new sender.new quoted.new number.new
        ≡ shown (read_known known s.now) (numbers_of kind.old sender.old quoted.old number.old) }
    ensures block { BlockTold (read_known known s.now) s.now block.old block.new }
{
    let end = frame_read::cut_block(s);
    let count = end.len();
    match read_known(known, s) {
        Ok(Message::Frame(header)) => {
            *kind = header.kind.number();
            *sender = header.sender;
            *quoted = header.quoted;
            *number = header.number;
            *block = count;
            0
        }
        Ok(Message::Request(request)) => {
            *kind = request.number();
            *sender = 0;
            *quoted = 0;
            *number = 0;
            *block = count;
            0
        }
        Err(refusal) => refusal.number(),
    }
}

// Writes a frame to the start of out; its length goes to length. Only DATA has a block, only DATA and ACK have a number.
#[unsafe(no_mangle)]
pub extern "C" fn codec_write(
    kind: u8,
    sender: u32,
    quoted: u32,
    number: u32,
    block: &[u8],
    out: &mut [u8],
    length: &mut usize,
) -> u8
    ensures { WritesOctets (write_frame (numbers_of kind sender quoted number) block.now out.old) out.old out.new length.old length.new result }
{
    if out.len() < octets::LONGEST_FRAME {
        return Refusal::ShortBuffer.number();
    }
    let Ok(kind) = Kind::try_from(kind) else {
        return Refusal::UnknownKind.number();
    };
    let header = Header {
        kind,
        sender,
        quoted,
        number,
    };
    match kind {
        Kind::Data => {
            if !frame_read::count_ok(block.len()) {
                return Refusal::BadCount.number();
            }
            *length = frame::write(header, block, out);
        }
        _ => *length = frame::write(header, &[], out),
    }
    0
}
