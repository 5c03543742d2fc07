// The values of four lines, and the numbers that stand for them.
use gates::LineSet;
use std::array;

// The values of lines 0 to 3, line 0 first.
#[derive(Clone, Copy, PartialEq, Eq, Debug)]
pub struct Values([bool; 4]);

// A number has line i at weight 2^i.
impl From<LineSet> for Values {
    fn from(number: LineSet) -> Values {
        Values(array::from_fn(|line| number >> line & 1 == 1))
    }
}

// The last line is the highest digit.
impl From<Values> for LineSet {
    fn from(values: Values) -> LineSet {
        let digits = values.0.iter().rev();
        digits.fold(0, |number, value| number << 1 | u32::from(*value))
    }
}

impl Values {
    // The value of a line, 0 behind the last.
    pub fn at(self, line: u8) -> bool {
        self.0.get(usize::from(line)).copied().unwrap_or(false)
    }

    // The values with one line's replaced.
    pub fn with(self, line: u8, value: bool) -> Values {
        let mut changed = self;
        if let Some(old) = changed.0.get_mut(usize::from(line)) {
            *old = value;
        }
        changed
    }

    // The values with those of the chosen lines inverted.
    pub fn inverted(self, chosen: Values) -> Values {
        Values(array::from_fn(|line| self.0[line] != chosen.0[line]))
    }

    // What the lines that a table of three names hold, as the values of lines 0 to 2, and line 3 as it is.
    pub fn through(self, table: [u8; 3]) -> Values {
        let [v0, v1, v2] = table.map(|line| self.at(line));
        Values([v0, v1, v2, self.at(3)])
    }
}
