// The line program: lends line_run a new page and its buffers.
#![tactic(auto)]

use line_io::{Buffers, Streams};
use line_run::OneEnd;

fn main(rt: HostRuntime) {
    let mut end = OneEnd {
        page: [page::UNUSED; octets::PAGE_SIZE],
        rec: [0; lent_record::RECORD_SIZE],
    };
    let mut buffers = Buffers::new();
    line_run::run(Streams::from(&rt), &mut end, &mut buffers);
}
