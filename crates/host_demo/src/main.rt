// A host that holds its end's record as a struct, beside its page: document 01's run, each call lending both, with a block that comes early; then a restart.
#![tactic(auto)]

ghost use Rattle.std.specs.Prelude.{◌≡◌, ◌≤◌, length};
ghost use Rattle.octets.specs.Sizes.{longest_frame, longest_block};
ghost use Rattle.octets.specs.Test.{Outcome};
ghost use Rattle.protocol.specs.Table.{Step};
ghost use Rattle.call_spec.specs.Calls.{given, rooms, page_after};
ghost use Rattle.endpoint_plan.specs.Calls.{outcome_of};
ghost use Rattle.endpoint_step.specs.Calls.{step_answer_of};

use call_spec::{Call, Status};
use endpoint::Endpoint;
use endpoint_step::StepAnswer;
use std::io::{Print, Stdout};

// Writes what a call or a restart answers.
fn tell(output: Stdout, a: StepAnswer, block: &[u8], sent: &[u8])
    requires { (length block.now ≤ longest_block) × (length sent.now ≤ longest_frame) }
{
    let e = a.endpoint;
    let t = Status {
        number: a.number,
        state: e.state,
        notice: a.notice,
        local: e.local,
        remote: e.remote,
    };
    let mut text = [0u8; answer_text::ANSWER_ROOM];
    let n = answer_text::write_text(t, block, sent, &mut text);
    let _ = output.write_all(&text[..n]);
}

// One call: writes what it answers, and gives the record that it leaves.
fn perform(output: Stdout, call: Call, e: Endpoint, page: &mut [u8], s: &[u8]) -> Endpoint
    requires { length s.now ≤ longest_frame }
    ensures { (let o : Outcome Step = outcome_of e page.old (given call s.now (rooms longest_frame longest_block)) in (result ≡ (step_answer_of e o).endpoint) × (page.new ≡ page_after page.old o)) }
{
    let mut frame = [0u8; Endpoint::LONGEST_FRAME];
    let mut up = [0u8; Endpoint::LONGEST_BLOCK];
    let a = host::lend(call, e, page, s, &mut frame, &mut up);
    let after = a.endpoint;
    let block = step_plan::block_part(call, frame_read::cut_block(s), &up, a.block);
    tell(output, a, block, &frame[..a.sent]);
    after
}

fn main(rt: HostRuntime) {
    let output = rt.stdout();
    let mut page = [page::UNUSED; octets::PAGE_SIZE];
    let fresh = Endpoint::fresh();
    let listening = perform(output, Call::Request, fresh, &mut page, b"\x41");
    let answering = perform(
        output,
        Call::Receive,
        listening,
        &mut page,
        b"\x01\x00\x00\x00\x07\x00\x00\x00\x00",
    );
    let opened = perform(
        output,
        Call::Receive,
        answering,
        &mut page,
        b"\x03\x00\x00\x00\x07\x00\x00\x00\x01",
    );
    let early = perform(
        output,
        Call::Receive,
        opened,
        &mut page,
        b"\x08\x00\x00\x00\x07\x00\x00\x00\x01\x00\x00\x00\x01\x02cd",
    );
    let refused = perform(output, Call::Request, early, &mut page, b"\x41");
    let handed = perform(
        output,
        Call::Receive,
        refused,
        &mut page,
        b"\x08\x00\x00\x00\x07\x00\x00\x00\x01\x00\x00\x00\x00\x02ab",
    );
    let collected = perform(output, Call::Request, handed, &mut page, b"\x46");
    let closing = perform(output, Call::Request, collected, &mut page, b"\x43");
    let restarted = endpoint_step::restart(closing, &page);
    tell(output, restarted, b"", b"");
}
