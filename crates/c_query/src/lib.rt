// The question of the bench for C, on numbers and byte buffers alone; include/dock.h declares it.
#![tactic(auto)]

ghost use Rattle.bench_spec.specs.Bench.{bench_of};
ghost use Rattle.call_spec.specs.Claim.{lent};
ghost use Rattle.c_query.specs.Answers.{FrameNamed};

use bench_checks::LentBench;

// Answers the number; the frame's goes to the last, 512 where there is none.
#[unsafe(no_mangle)]
pub extern "C" fn dock_first_frame(
    a: &[u8],
    b: &[u8],
    a_page: &[u8],
    b_page: &[u8],
    log: &[u8],
    count: usize,
    frame: &mut usize,
) -> u8
    ensures { FrameNamed (bench_of (lent a.now a_page.now) (lent b.now b_page.now) log.now count) result frame.new }
{
    let found = bench_query::first_frame(LentBench::new(a, b, a_page, b_page, log, count));
    match found {
        Ok(Some(n)) => {
            *frame = n;
            0
        }
        Ok(None) => {
            *frame = bench_log::PLACES;
            0
        }
        Err(refusal) => {
            *frame = bench_log::PLACES;
            refusal.number()
        }
    }
}
