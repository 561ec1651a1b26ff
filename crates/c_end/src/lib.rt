// The calls of an end for C, on numbers and byte buffers alone; include/dock.h declares them. Each makes one call of `link` and stores
// what it answers in the numbers lent. The bench's calls are objects of their own in the same library: what the compiler finds called
// from both it compiles into neither, and each would be slower.
#![tactic(auto)]

ghost use Rattle.std.specs.Prelude.{◌≡◌, []};
ghost use Rattle.octets.specs.Test.{number_of};
ghost use Rattle.frame.specs.Read.{cut_block};
ghost use Rattle.call_spec.specs.declared.Call.TheVariants.{Request, Receive};
ghost use Rattle.call_spec.specs.Calls.{restarted_in, record_after};
ghost use Rattle.lent_record.specs.Record.{format};
ghost use Rattle.link.specs.Lent.{Called, lent_outcome, CalledLent, answer_in};

use call_spec::Call;

// Restarts an end: its record becomes the one that the page says, and the page stays. Answers 0, 11 or 15. A new page makes a fresh end.
#[tactic(auto, unfolding(lent_record::specs::Told::answer_of, lent_record::specs::Told::status_of))]
#[unsafe(no_mangle)]
pub extern "C" fn dock_restart(rec: &mut [u8], page: &[u8]) -> u8
    ensures { (result ≡ number_of (restarted_in format rec.old page.now)) × (rec.new ≡ record_after format rec.old (restarted_in format rec.old page.now)) }
{
    let a = lent_record::restart(rec, page);
    let restarted = a.status;
    restarted.number
}

// A request, the timer call among them: s has its octets. One octet of the page at most is set, before every other store. Answers the number; state, notice, L, D, the length of the frame sent and that
// of the block collected, which stands at the start of up, go to the last six.
#[unsafe(no_mangle)]
pub extern "C" fn dock_request(
    rec: &mut [u8],
    page: &mut [u8],
    s: &[u8],
    out: &mut [u8],
    up: &mut [u8],
    state: &mut u8,
    notice: &mut u8,
    local: &mut u32,
    remote: &mut u32,
    sent: &mut usize,
    block: &mut usize,
) -> u8
    ensures { CalledLent Request rec.old page.old s.now out.old up.old
        rec.new page.new out.new up.new
        (answer_in result state.new notice.new local.new remote.new sent.new block.new) }
{
    let a = link::perform(Call::Request, rec, page, s, out, up);
    let told = a.status;
    *state = told.state;
    *notice = told.notice;
    *local = told.local;
    *remote = told.remote;
    *sent = a.sent;
    *block = a.block;
    told.number
}

// Receives the frame s. The page is looked at alone. Answers the number; the block handed up is octets 14 on of s, and its length, 0 where there is none, goes to
// the last.
#[unsafe(no_mangle)]
pub extern "C" fn dock_receive(
    rec: &mut [u8],
    page: &[u8],
    s: &[u8],
    out: &mut [u8],
    state: &mut u8,
    notice: &mut u8,
    local: &mut u32,
    remote: &mut u32,
    sent: &mut usize,
    block: &mut usize,
) -> u8
    ensures { Called Receive (lent_outcome Receive rec.old page.now s.now out.old [])
        rec.old (cut_block s.now) out.old [] rec.new out.new []
        (answer_in result state.new notice.new local.new remote.new sent.new block.new) }
{
    let (answer, _) = link::receive(rec, page, s, out);
    let told = answer.status;
    *state = told.state;
    *notice = told.notice;
    *local = told.local;
    *remote = told.remote;
    *sent = answer.sent;
    *block = answer.block;
    told.number
}
