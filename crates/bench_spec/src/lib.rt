// The bench: definitions and theorems, demand 3 about its runs among them, and the number of an end.
#![tactic(auto)]

ghost use Rattle.std.specs.Prelude.{◌≡◌, ◌≤◌};
ghost use Rattle.bench_spec.specs.Bench.{end_number};

// The two ends, as the lines and the log number them.
#[derive(Clone, Copy, Debug, PartialEq, Eq)]
pub enum End {
    A = 0,
    B = 1,
}

impl End {
    pub fn number(self) -> u8
        ensures { (result ≡ end_number self) × (result ≤ 1) }
    {
        self as u8
    }
}

// What the octets of a line order: a request at an end, the delivery of a frame by its number, or the restart of an end.
// On its way to an end an order is a Result<Order, u8>, whose error is the number that is told. A number and no Refusal: the must-fail edit bench_line/empty_accepted gives a refusal
// by 0, which no Refusal is.
#[derive(Clone, Copy, Debug, PartialEq, Eq)]
pub enum Order {
    Request(End),
    Deliver(usize),
    Restart(End),
}
