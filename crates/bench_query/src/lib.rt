// The question of the bench: the first frame in the log whose delivery now would be accepted and change the receiver's record.
#![tactic(auto)]

ghost use Rattle.std.specs.Prelude.{◌≡◌, true, List, ℕ, ◌≤◌, length};
ghost use Rattle.endpoint.specs.Record.{record_size};
ghost use Rattle.octets.specs.Refusal.{told};
ghost use Rattle.octets.specs.Sizes.{longest_frame, longest_block, page_size};
ghost use Rattle.call_spec.specs.declared.Call.TheVariants.{Receive};
ghost use Rattle.call_spec.specs.Calls.{given, rooms};
ghost use Rattle.call_spec.specs.Claim.{lent};
ghost use Rattle.lent_record.specs.Record.{format, paged_for};
ghost use Rattle.bench_checks.specs.Ready.{bench_in};
ghost use Rattle.bench_call.specs.Internal.{outcome_at};
ghost use Rattle.bench_query.specs.Found.{changes, would_change, first_frame};
ghost use Rattle.bench_query.specs.Internal.{BenchReady};

use bench_checks::LentBench;
use bench_spec::End;
use call_spec::Call;
use octets::Refusal;

// Whether receiving s would be accepted, by 14 too, and change the record. The plan for it tells, and nothing is copied. It is the same for every page
// that goes with the record.
fn changes(rec: &[u8], s: &[u8], count: usize) -> bool
    requires { (record_size ≤ length rec.now) × (format.sound rec.now ≡ true) }
    ensures { (page : List ℕ) → page_size ≤ length page → paged_for rec.now page ≡ true → result ≡ changes rec.now (outcome_at (lent rec.now page) count (given Receive s.now (rooms longest_frame longest_block))) }
{
    let n = endpoint::load_numbers(rec);
    match link::plan_sound(Call::Receive, rec, s) {
        Ok(p) => bench_call::has_place(p.reply, count) && !p.leaves_alone(n),
        Err(_) => false,
    }
}

// Whether the delivery of frame n would. It goes to the end that did not send it.
fn would_change(bench: LentBench, n: usize) -> bool
    requires { BenchReady (bench_in bench) }
    ensures { result ≡ would_change (bench_in bench.entry) n }
{
    if !bench_log::holds(bench.log, bench.count, n) {
        return false;
    }
    let s = bench_log::frame_of(bench.log, n);
    match bench_checks::receiver_of(bench.log, n) {
        End::A => changes(bench.a.rec, s, bench.count),
        End::B => changes(bench.b.rec, s, bench.count),
    }
}

// Asks 11, 12 and 15 of the records, the pages, the log and the count, then frame by frame from the front: the number of the first that would, if
// one would.
pub fn first_frame(bench: LentBench) -> Result<Option<usize>, Refusal>
    ensures { told result ≡ first_frame (bench_in bench.entry) }
{
    bench_checks::ready(None, bench, octets::LONGEST_FRAME, octets::LONGEST_BLOCK)?;
    let mut n = 0;
    // Document 01 names this form: the loop over the book yields the frame's number by break.
    let found = loop {
        if n >= bench.count {
            break None;
        }
        if would_change(bench, n) {
            break Some(n);
        }
        n += 1;
    };
    Ok(found)
}
