// Lines of text from standard input, and text to standard output, through buffers: all of a program but its answers.
#![tactic(auto)]

ghost use Rattle.std.specs.Prelude.{ℕ, false, ◌≡◌, ◌+◌, ◌≤◌, ◌<◌, length, take, replicate};
ghost use Rattle.octets.specs.Test.{when};
ghost use Rattle.line_split.specs.Split.{longest_kept};
ghost use Rattle.line_io.specs.Answering.{Answering, Answered, Cuts};
ghost use Rattle.line_io.specs.Place.{buffer_size, PlaceFits, Starts, ready_line, emptied, answered_with, Flushed, AfterRead, Filled, Taken, Next};
ghost use Rattle.line_io.specs.Step.{Stepped};
ghost use Rattle.line_io.specs.Program.{Ran};

use std::fmt::InlineText;
use std::io::{Error, Print, Read, Stderr, Stdin, Stdout};

// The octets of a program's buffers for its input and its output.
pub const BUFFER_SIZE: usize = 65536;

// What is kept of a line: one character more than a line may have, two for each octet of the longest frame. A longer line is
// refused whatever it holds.
pub const LONGEST_KEPT: usize = 2 * octets::LONGEST_FRAME + 1;

// How far a program is. The input at hand is read up to end and used up to at; kept characters of a line that began in earlier
// input are held; filled characters of output wait. One line is ready or none: what is held or, where nothing is, the input at
// hand between from and to. The program is done where no steps are left; each step leaves fewer, so that every run ends.
// PlaceFits is no invariant of the type: `ready` and `answered` take any place, and `emptied` and `answered_with` make one of any.
#[derive(Clone, Copy)]
pub struct Place {
    pub at: usize,
    pub end: usize,
    pub kept: usize,
    pub filled: usize,
    pub from: usize,
    pub to: usize,
    pub steps: u64,
    pub has_line: bool,
}

// What a program reads and writes, and where it says what failed.
#[derive(Clone, Copy)]
pub struct Streams {
    pub input: Stdin,
    pub output: Stdout,
    pub error: Stderr,
}

// The input at hand, what is held of a line, and the output that waits. How much of each counts is the place's to say, apart from
// its buffers: so `Stepped` and `Ran`, of which the theorems speak, have them.
#[derive(Drop)]
pub struct Buffers {
    pub input: [u8; BUFFER_SIZE],
    pub output: [u8; BUFFER_SIZE],
    pub line: [u8; LONGEST_KEPT],
}

// What answers the lines of a program, in state after state.
pub trait Responder {
    ghost answering: { Answering };

    ghost state: { Self → answering.State };

    ghost ROOM: { ℕ };

    // The room that an answer may take.
    const ROOM: usize;

    // Writes the answer to a line, which is given without its line feed, to the start of out. The result is how many
    // characters it wrote.
    fn answer(&mut self, line: &[u8], out: &mut [u8]) -> usize
        requires { ROOM ≤ length out.old }
        ensures { Answered answering (state self.old) line.now out.old (state self.new) out.new result };

    // What is kept of a line says all that counts of it, and an answer fits the buffer.
    ghost cuts: { Cuts answering };

    ghost fits: { ROOM ≤ buffer_size };
}

impl From<&HostRuntime> for Streams {
    fn from(rt: &HostRuntime) -> Streams {
        Streams {
            input: rt.stdin(),
            output: rt.stdout(),
            error: rt.stderr(),
        }
    }
}

impl Streams {
    // Tells what failed, and why.
    fn tell(self, what: &str, why: Error) {
        let text = InlineText::<256>::of(why);
        let reason = reason(text.as_str());
        let _ = eprintln!(self.error; "{what}: {reason}");
    }
}

// The reason of a failure, without the number of the system that std puts after it.
fn reason(text: &str) -> &str {
    text.rsplit_once(" (os error ")
        .map_or(text, |(reason, _)| reason)
}

impl Place {
    // Before the first read, with more steps than any run takes.
    pub fn start() -> Place
        ensures { Starts result }
    {
        Place {
            at: 0,
            end: 0,
            kept: 0,
            filled: 0,
            has_line: false,
            from: 0,
            to: 0,
            steps: u64::MAX,
        }
    }

    // The output that waits.
    fn waiting(self, output: &[u8]) -> &[u8]
        requires { self.filled ≤ length output.now }
        ensures { result.now ≡ take self.filled output.now }
    {
        &output[..self.filled]
    }

    // Nothing waits after a write. The program is done where not all was written.
    #[tactic(auto, unfolding(octets::specs::Test::when))]
    fn after_write(self, all: bool) -> Place
        ensures { result ≡ emptied self (when all self.steps 0) }
    {
        Place {
            filled: 0,
            has_line: false,
            steps: if all { self.steps } else { 0 },
            ..self
        }
    }

    // After a read of n octets. At the end of the input there are none; text after the last line feed is a line too, and one
    // step is left, which writes its answer.
    fn after_read(self, n: usize) -> Place
        requires { self.has_line ≡ false }
        ensures { AfterRead n self result }
    {
        let p = Place {
            at: 0,
            end: n,
            from: 0,
            to: 0,
            ..self
        };
        if n > 0 {
            return p;
        }
        Place {
            has_line: self.kept > 0,
            steps: 1,
            ..p
        }
    }

    // The line that is ready.
    pub fn ready<'a>(self, input: &'a [u8], line: &'a [u8]) -> &'a [u8]
        requires { (self.kept ≤ length line.now) × ((self.from ≤ self.to) × (self.to ≤ length input.now)) }
        ensures { result.now ≡ ready_line input.now line.now self }
    {
        if self.kept > 0 {
            &line[..self.kept]
        } else {
            &input[self.from..self.to]
        }
    }

    // The line that was ready has its answer: n more characters of output wait.
    pub fn answered(self, n: usize) -> Place
        requires { self.filled + n ≤ buffer_size }
        ensures { result ≡ answered_with self n }
    {
        Place {
            kept: 0,
            filled: self.filled + n,
            has_line: false,
            ..self
        }
    }
}

impl Buffers {
    pub fn new() -> Buffers
        ensures { (result.input ≡ replicate buffer_size 0) × ((result.line ≡ replicate longest_kept 0) × (result.output ≡ replicate buffer_size 0)) }
    {
        Buffers {
            input: [0; BUFFER_SIZE],
            output: [0; BUFFER_SIZE],
            line: [0; LONGEST_KEPT],
        }
    }

    // Writes what waits of the output, and tells why where not all was written. Whether all was, no contract can say.
    fn flush(&self, streams: Streams, p: Place) -> Place
        requires { p.filled ≤ buffer_size }
        ensures { Flushed p result }
    {
        match streams.output.write_all(p.waiting(&self.output)) {
            Ok(()) => p.after_write(true),
            Err(why) => {
                streams.tell("standard output", why);
                p.after_write(false)
            }
        }
    }

    // Reads on where a step is left. What is read, no contract can say.
    fn fill(&mut self, streams: Streams, p: Place) -> Place
        requires { p.has_line ≡ false }
        ensures filled { Filled p self.new.input result }
        ensures others { (self.new.line ≡ self.old.line) × (self.new.output ≡ self.old.output) }
    {
        if p.steps == 0 {
            return p;
        }
        let mut input = streams.input;
        match input.read(&mut self.input) {
            Ok(n) => p.after_read(n),
            Err(why) => {
                streams.tell("standard input", why);
                p.after_read(0)
            }
        }
    }

    // Takes the next line of the input at hand, or what there is of it.
    fn take(&mut self, p: Place) -> Place
        requires place_fits { (PlaceFits p) × (p.at < p.end) }
        ensures taken { Taken self.old.input self.old.line p self.new.line result }
        ensures others { (self.new.input ≡ self.old.input) × (self.new.output ≡ self.old.output) }
    {
        let input = &self.input;
        let line = &mut self.line;
        let stop = p.at + line_split::line_length(&input[p.at..p.end]);
        let q = Place {
            from: p.at,
            to: stop,
            ..p
        };
        if stop == p.end {
            let kept = line_split::keep(line, p.kept, &input[p.at..p.end]);
            return Place {
                at: p.end,
                kept,
                has_line: false,
                ..q
            };
        }
        let q = Place {
            at: stop + 1,
            has_line: true,
            ..q
        };
        if p.kept == 0 {
            return q;
        }
        let kept = line_split::keep(line, p.kept, &input[p.at..stop]);
        Place { kept, ..q }
    }

    // One step towards the next line: reads on, makes room for an answer, or takes a line. Where one is ready, room characters
    // of the output are free.
    pub fn next(&mut self, streams: Streams, room: usize, p: Place) -> Place
        requires { (PlaceFits p) × (0 < p.steps) }
        ensures next { Next room self.old.input self.old.line p self.new.input self.new.line result }
        ensures output { self.new.output ≡ self.old.output }
    {
        let q = Place {
            steps: p.steps - 1,
            ..p
        };
        if p.at == p.end {
            let written = self.flush(streams, q);
            return self.fill(streams, written);
        }
        if BUFFER_SIZE - p.filled < room {
            return self.flush(streams, q);
        }
        self.take(q)
    }
}

// One step of a program, with the answer where a line is ready.
fn step<A: Responder>(answers: &mut A, streams: Streams, buffers: &mut Buffers, p: Place) -> Place
    requires { (PlaceFits p) × (0 < p.steps) }
    ensures { Stepped A.answering A.ROOM (A.state answers.old) buffers.old.input buffers.old.line buffers.old.output p
        (A.state answers.new) buffers.new.input buffers.new.line buffers.new.output result }
{
    let q = buffers.next(streams, A::ROOM, p);
    if q.has_line {
        let Buffers {
            input,
            output,
            line,
        } = buffers;
        let n = answers.answer(q.ready(input, line), &mut output[q.filled..]);
        return q.answered(n);
    }
    q
}

// A program: steps while some are left.
pub fn run<A: Responder>(answers: &mut A, streams: Streams, buffers: &mut Buffers) -> Place
    ensures { (Ran A.answering A.ROOM (A.state answers.old) (A.state answers.new) buffers.new.input buffers.new.line buffers.new.output result)
        × (result.steps ≡ 0) }
{
    let mut p = Place::start();
    while p.steps > 0 {
        p = step(answers, streams, buffers, p);
    }
    p
}
