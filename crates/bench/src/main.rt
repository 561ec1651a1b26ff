// The bench program: lends bench_run two new pages, an empty log and its buffers.
#![tactic(auto)]

use bench_run::BothEnds;
use line_io::{Buffers, Streams};

fn main(rt: HostRuntime) {
    let mut ends = BothEnds {
        a_page: [page::UNUSED; octets::PAGE_SIZE],
        b_page: [page::UNUSED; octets::PAGE_SIZE],
        log: [0; bench_log::LOG_SIZE],
        a: [0; lent_record::RECORD_SIZE],
        b: [0; lent_record::RECORD_SIZE],
        count: 0,
    };
    let mut buffers = Buffers::new();
    bench_run::run(Streams::from(&rt), &mut ends, &mut buffers);
}
