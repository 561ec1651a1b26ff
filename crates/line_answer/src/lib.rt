// One end asked by lines of text: a line and its answer.
#![tactic(auto)]

ghost use Rattle.std.specs.Prelude.{◌≡◌, ◌≤◌, length};
ghost use Rattle.octets.specs.Sizes.{longest_frame};
ghost use Rattle.octets.specs.Refusal.{refusal_number};
ghost use Rattle.octets.specs.Test.{first, refused};
ghost use Rattle.call_spec.specs.Calls.{performed};
ghost use Rattle.endpoint.specs.Record.{record_size};
ghost use Rattle.lent_record.specs.Record.{format, record_questions};
ghost use Rattle.answer_text.specs.Text.{answer_room, StartsWith};
ghost use Rattle.line_answer.specs.Line.{call_in, line_call, line_outcome};
ghost use Rattle.line_answer.specs.Text.{text, standing, LineAnswered, LineAsked};

use call_spec::Call;
use frame::Class;
use octets::Refusal;

// The call that the octets of a line make.
fn call_in(s: &[u8]) -> Call
    ensures { result ≡ call_in s.now }
{
    match frame_read::class_of(s) {
        Some(Class::Request) => Call::Request,
        Some(Class::Frame) | None => Call::Receive,
    }
}

// What the octets of a line ask, where 11, 12 and 15 of the record and its page are passed. The page is stored to first.
fn ask(rec: &mut [u8], page: &mut [u8], s: &[u8], out: &mut [u8]) -> Result<usize, Refusal>
    requires { (first (record_questions rec.old page.old) ≡ 0) × ((length s.now ≤ longest_frame) × (answer_room ≤ length out.old)) }
    ensures { LineAsked (performed format rec.old page.old (line_call s.now)) rec.old page.old out.old rec.new page.new out.new result }
{
    let call = call_in(s);
    let plan = link::plan_sound(call, rec, s)?;
    let block = frame_read::cut_block(s);
    let mut frame = [0u8; octets::LONGEST_FRAME];
    let mut up = [0u8; octets::LONGEST_BLOCK];
    link::reserve(Ok(plan), page);
    let a = link::finish(call, Ok(plan), page, rec, block, &mut frame, &mut up);
    let handed = step_plan::block_part(call, block, &up, a.block);
    Ok(answer_text::write_text(a.status, handed, &frame[..a.sent], out))
}

fn refuse(rec: &[u8], refusal: Refusal, out: &mut [u8]) -> usize
    requires { answer_room ≤ length out.old }
    ensures { StartsWith (text rec.now (refused (refusal_number refusal))) out.old out.new result }
{
    let a = lent_record::decline(rec, refusal);
    answer_text::write_answer(a.status, &[], out)
}

// Writes the answer to an empty line to the start of out: how the end with the record rec stands, in 23 characters.
pub fn stand(rec: &[u8], out: &mut [u8]) -> usize
    requires { (record_size ≤ length rec.now) × (length (standing rec.now) ≤ length out.old) }
    ensures { StartsWith (standing rec.now) out.old out.new result }
{
    answer_text::write_answer(lent_record::stands(rec), &[], out)
}

// What a line asks: its answer, or the refusal. A line that is refused leaves all as it was.
fn asked(rec: &mut [u8], page: &mut [u8], line: &[u8], out: &mut [u8]) -> Result<usize, Refusal>
    requires { answer_room ≤ length out.old }
    ensures { LineAsked (line_outcome rec.old page.old line.now) rec.old page.old out.old rec.new page.new out.new result }
{
    lent_record::ready(rec, page)?;
    if line.is_empty() {
        return Ok(stand(rec, out));
    }
    let mut s = [0u8; octets::LONGEST_FRAME];
    let n = hexadecimal::read(line, &mut s)?;
    ask(rec, page, &s[..n], out)
}

// Answers a line, which is given without its line feed, at the end with the record rec and this page: the answer line and, if a frame is
// sent, its line go to the start of out, which has room for answer_text::ANSWER_ROOM characters. The result is how many it wrote.
pub fn answer(rec: &mut [u8], page: &mut [u8], line: &[u8], out: &mut [u8]) -> usize
    requires { answer_room ≤ length out.old }
    ensures { LineAnswered (line_outcome rec.old page.old line.now) rec.old page.old out.old rec.new page.new out.new result }
{
    match asked(rec, page, line, out) {
        Ok(n) => n,
        Err(refusal) => refuse(rec, refusal, out),
    }
}
