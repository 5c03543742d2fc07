// A state's way through a cascade and back.
ghost use Rattle.std.specs.Prelude.{◌≡◌, if◌then◌else◌, ◌==◌};
ghost use Rattle.gates.specs.Cascades.{run};
ghost use Rattle.gates.specs.Lines.{bit};
ghost use Rattle.gates.specs.Toffoli.{toffoli};

use crate::adder::LINES;
use gates::{Gate, LineSet, Toffoli, run_cascade, sets};
use std::fmt;

// Where a state started, which state a cascade sent it to, and which state another cascade sent that to.
#[derive(Clone, Copy)]
pub struct RoundTrip {
    start: LineSet,
    reached: LineSet,
    returned: LineSet,
}

impl RoundTrip {
    // The way of a state through the cascade `there` and then through the cascade `back`.
    pub fn new(there: &[Gate], back: &[Gate], start: LineSet) -> RoundTrip
        ensures started { result.start ≡ start }
        ensures went { bit result.reached ≡ run toffoli there.now (bit start) }
        ensures came { bit result.returned ≡ run toffoli back.now (bit result.reached) }
    {
        let reached = run_cascade::<Toffoli>(there, start);
        let returned = run_cascade::<Toffoli>(back, reached);
        RoundTrip {
            start,
            reached,
            returned,
        }
    }

    // Whether the state came back to where it started.
    pub fn is_restored(self) -> bool
        ensures { result ≡ (self.returned == self.start) }
    {
        self.returned == self.start
    }
}

// The value of a line, as a digit.
fn digit(state: LineSet, line: u8) -> u8
    ensures { result ≡ (if bit state line then 1 else 0) }
{
    u8::from(sets::has_line(state, line))
}

// The values of lines 0 to 3, line 0 first.
#[derive(Clone, Copy)]
struct Values(LineSet);

impl fmt::Display for Values {
    fn fmt<W: fmt::Write>(&self, f: &mut fmt::Formatter<W>) -> fmt::Result {
        for line in 0..LINES {
            write!(f, "{}", digit(self.0, line))?;
        }
        Ok(())
    }
}

// The values at the start and where the cascade led, as `1010 -> 1101`.
impl fmt::Display for RoundTrip {
    fn fmt<W: fmt::Write>(&self, f: &mut fmt::Formatter<W>) -> fmt::Result {
        write!(f, "{} -> {}", Values(self.start), Values(self.reached))
    }
}
