// The line program but for its start: one end, asked by lines of standard input, answered on standard output.
#![tactic(auto)]

ghost use Rattle.std.specs.Prelude.{◌≡◌};
ghost use Rattle.std.proofs.Common.{rules};
ghost use Rattle.page.specs.Page.{new_page};
ghost use Rattle.call_spec.specs.Claim.{lent};
ghost use Rattle.answer_text.specs.Text.{answer_room};
ghost use Rattle.lent_record.specs.Told.{fresh_end};
ghost use Rattle.line_io.specs.Program.{Ran};
ghost use Rattle.line_run.specs.Ends.{one_end};
ghost use Rattle.line_run.specs.Laws.{cuts};

use line_io::{Buffers, Place, Responder, Streams};

// One end: its page and its record. The page stands first, so that it lies aligned: every call reads all of it.
#[derive(Drop)]
pub struct OneEnd {
    pub page: [u8; octets::PAGE_SIZE],
    pub rec: [u8; lent_record::RECORD_SIZE],
}

impl Responder for OneEnd {
    ghost answering = { one_end };

    ghost state = { λ e. lent e.rec e.page };

    ghost ROOM = { answer_room };

    const ROOM: usize = answer_text::ANSWER_ROOM;

    fn answer(&mut self, line: &[u8], out: &mut [u8]) -> usize {
        line_answer::answer(&mut self.rec, &mut self.page, line, out)
    }

    ghost cuts = { cuts };

    ghost fits = { Prim.search rules };
}

// A restart on a new page, which makes a fresh end, and then the lines.
pub fn run(streams: Streams, end: &mut OneEnd, buffers: &mut Buffers) -> Place
    requires { end.old.page ≡ new_page }
    ensures { (Ran one_end answer_room fresh_end (lent end.new.rec end.new.page) buffers.new.input buffers.new.line buffers.new.output result)
        × (result.steps ≡ 0) }
{
    lent_record::restart(&mut end.rec, &mut end.page);
    line_io::run(end, streams, buffers)
}
