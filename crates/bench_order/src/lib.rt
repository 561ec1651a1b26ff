// What a bench line orders, and all questions up to 13 of it, decided with values: nothing is stored.
#![tactic(auto)]

ghost use Rattle.std.specs.Prelude.{◌≡◌, IsOk};
ghost use Rattle.octets.specs.Refusal.{told};
ghost use Rattle.octets.specs.Test.{and_then};
ghost use Rattle.bench_spec.specs.Bench.{numbered, end_number, restarted_number, restart_order, order_of, end_restarted};
ghost use Rattle.bench_order.specs.Internal.{found, Findable, FindableIn, end_for, EndKnown};

use bench_spec::{End, Order};
use octets::Refusal;

// The first octets of a line, and the second ones of a line 53. They are matched where they are read, and nowhere else: an enum of them would be read once.
const REQUEST_A: u8 = 0x50;

const REQUEST_B: u8 = 0x51;

const DELIVER: u8 = 0x52;

const RESTART: u8 = 0x53;

// What a line 53 orders: its second octet names the end.
#[tactic(auto, using(octets::proofs::Test::picks), unfolding(bench_spec::specs::Bench::restart_order, octets::specs::Test::when, octets::specs::Test::in_range))]
fn restart_order(s: &[u8]) -> Result<Order, Refusal>
    ensures { told result ≡ restart_order s.now }
{
    if s.len() < 2 {
        return Err(Refusal::BadSize);
    }
    let end = match s[1] {
        REQUEST_A => End::A,
        REQUEST_B => End::B,
        _ => return Err(Refusal::UnknownKind),
    };
    if s.len() != 2 {
        return Err(Refusal::BadSize);
    }
    Ok(Order::Restart(end))
}

// What the octets of a line order.
#[tactic(auto, using(octets::proofs::Test::picks, crate::proofs::Orders::number_of), unfolding(bench_spec::specs::Bench::order_of, frame::specs::Read::kind_of))]
pub fn order_of(s: &[u8]) -> Result<Order, Refusal>
    ensures { told result ≡ order_of s.now }
{
    let [kind, rest @ ..] = s else {
        return Err(Refusal::UnknownKind);
    };
    match *kind {
        REQUEST_A => Ok(Order::Request(End::A)),
        REQUEST_B => Ok(Order::Request(End::B)),
        DELIVER => match rest {
            [high, low] => Ok(Order::Deliver(usize::from(*high) * 256 + usize::from(*low))),
            _ => Err(Refusal::BadSize),
        },
        RESTART => restart_order(s),
        _ => Err(Refusal::UnknownKind),
    }
}

// The end that an order restarts, whose record 12 and 15 do not look at.
#[tactic(auto, unfolding(bench_spec::specs::Bench::end_restarted))]
pub fn end_restarted(order: Result<Order, u8>) -> Option<End>
    ensures { restarted_number result ≡ end_restarted (numbered order) }
{
    match order {
        Ok(Order::Restart(restarted)) => Some(restarted),
        Ok(Order::Request(_) | Order::Deliver(_)) | Err(_) => None,
    }
}

// Question 13: a delivery is of a frame that the log holds.
#[tactic(auto, unfolding(crate::specs::Internal::found, octets::specs::Test::when))]
fn find(order: Order, log: &[u8], count: usize) -> Result<Order, Refusal>
    requires { Findable order log.now count }
    ensures { told result ≡ found log.now count order }
{
    match order {
        Order::Deliver(n) => {
            if !bench_log::holds(log, count, n) {
                return Err(Refusal::NoSuchFrame);
            }
            Ok(order)
        }
        Order::Request(_) | Order::Restart(_) => Ok(order),
    }
}

// All questions up to 13, of which 11, 12 and 15, which ready has asked, come before the order's own refusal.
#[tactic(auto, using(bench_spec::proofs::Numbers::by_number), unfolding(octets::specs::Test::and_then))]
pub fn decide(
    ready: Result<(), u8>,
    order: Result<Order, u8>,
    log: &[u8],
    count: usize,
) -> Result<Order, u8>
    requires { IsOk ready → FindableIn (numbered order) log.now count }
    ensures { numbered result ≡ and_then (numbered ready) (λ _. and_then (numbered order) (found log.now count)) }
{
    ready?;
    find(order?, log, count).map_err(Refusal::number)
}

// The end that a decided order is for. A frame goes to the end that did not send it; a refusal tells of A.
#[tactic(auto, unfolding(crate::specs::Internal::end_for))]
pub fn end_for(order: Result<Order, u8>, log: &[u8]) -> End
    requires { EndKnown (numbered order) log.now }
    ensures { end_number result ≡ end_for (numbered order) log.now }
{
    match order {
        Ok(Order::Request(end) | Order::Restart(end)) => end,
        Ok(Order::Deliver(n)) => bench_checks::receiver_of(log, n),
        Err(_) => End::A,
    }
}
