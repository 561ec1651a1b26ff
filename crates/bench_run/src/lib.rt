// The bench program but for its start: two ends and every frame ever sent, asked by lines of standard input, answered on standard output.
#![tactic(auto)]

ghost use Rattle.std.specs.Prelude.{◌≡◌};
ghost use Rattle.std.proofs.Common.{rules};
ghost use Rattle.call_spec.specs.Claim.{lent};
ghost use Rattle.bench_spec.specs.Bench.{Bench, bench_of};
ghost use Rattle.bench_answer.specs.Text.{answer_room};
ghost use Rattle.line_io.specs.Program.{Ran};
ghost use Rattle.bench_run.specs.Ends.{both_ends, fresh_bench};
ghost use Rattle.bench_run.specs.Laws.{cuts};

use line_io::{Buffers, Place, Responder, Streams};

// Two ends, each a page and a record, and the log of count frames. The pages stand first, so that they lie aligned: every call reads
// all of them.
#[derive(Drop)]
pub struct BothEnds {
    pub a_page: [u8; octets::PAGE_SIZE],
    pub b_page: [u8; octets::PAGE_SIZE],
    pub log: [u8; bench_log::LOG_SIZE],
    pub a: [u8; lent_record::RECORD_SIZE],
    pub b: [u8; lent_record::RECORD_SIZE],
    pub count: usize,
}

impl Responder for BothEnds {
    ghost answering = { both_ends };

    ghost state = { λ w. bench_of (lent w.a w.a_page) (lent w.b w.b_page) w.log w.count };

    ghost ROOM = { answer_room };

    const ROOM: usize = bench_answer::ANSWER_ROOM;

    fn answer(&mut self, line: &[u8], out: &mut [u8]) -> usize {
        bench_answer::answer(
            &mut self.a,
            &mut self.b,
            &mut self.a_page,
            &mut self.b_page,
            &mut self.log,
            &mut self.count,
            line,
            out,
        )
    }

    ghost cuts = { cuts };

    ghost fits = { Prim.search rules };
}

// Restarts on two new pages, which make two fresh ends beside an empty log, and then the lines.
pub fn run(streams: Streams, ends: &mut BothEnds, buffers: &mut Buffers) -> Place
    requires a_page_value { (ends.old.a_page ≡ fresh_bench.a.page) × (ends.old.b_page ≡ fresh_bench.b.page) }
    requires log_value { (ends.old.log ≡ fresh_bench.log) × (ends.old.count ≡ fresh_bench.count) }
    ensures { (let e : BothEnds = ends.new in
        let w : Bench = bench_of (lent e.a e.a_page) (lent e.b e.b_page) e.log e.count in
        (Ran both_ends answer_room fresh_bench w buffers.new.input buffers.new.line buffers.new.output result) × (result.steps ≡ 0)) }
{
    lent_record::restart(&mut ends.a, &mut ends.a_page);
    lent_record::restart(&mut ends.b, &mut ends.b_page);
    line_io::run(ends, streams, buffers)
}
