// A host's own record, lent to one thin call that updates it.
#![tactic(auto)]

ghost use Rattle.std.specs.Prelude.{◌≡◌, length};
ghost use Rattle.call_spec.specs.Calls.{given, rooms};
ghost use Rattle.endpoint_step.specs.Calls.{Advances};

use call_spec::Call;
use endpoint::Endpoint;
use endpoint_step::StepAnswer;

// The step by value on a record that is lent, with its page. A refusal's answer has the record as it was.
pub fn advance(
    call: Call,
    e: &mut Endpoint,
    page: &mut [u8],
    s: &[u8],
    out: &mut [u8],
    up: &mut [u8],
) -> StepAnswer
    ensures { Advances e.old page.old (given call s.now (rooms (length out.old) (length up.old))) out.old up.old page.new out.new up.new result × (e.new ≡ result.endpoint) }
{
    let r = endpoint_step::step(call, *e, page, s, out, up);
    *e = r.endpoint;
    r
}

// The same for callers that hold the record by value: it is lent from here, and answered as the call left it.
pub fn lend(
    call: Call,
    e: Endpoint,
    page: &mut [u8],
    s: &[u8],
    out: &mut [u8],
    up: &mut [u8],
) -> StepAnswer
    ensures { Advances e page.old (given call s.now (rooms (length out.old) (length up.old))) out.old up.old page.new out.new up.new result }
{
    let mut held = e;
    advance(call, &mut held, page, s, out, up)
}
