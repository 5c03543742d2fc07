// Gates as text.
use gates::{Gate, WIDTH, sets};
use std::fmt;

// A Toffoli gate, as `t 3 +0 +1`.
#[derive(Clone, Copy)]
pub struct ToffoliText(pub Gate);

impl fmt::Display for ToffoliText {
    fn fmt<W: fmt::Write>(&self, f: &mut fmt::Formatter<W>) -> fmt::Result {
        let gate = self.0;
        write!(f, "t {}", gate.a)?;
        for line in 0..WIDTH {
            if sets::has_line(gate.positive, line) {
                write!(f, " +{line}")?;
            }
            if sets::has_line(gate.negative, line) {
                write!(f, " -{line}")?;
            }
        }
        Ok(())
    }
}
