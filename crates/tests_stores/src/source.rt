// Numbers that look random and are the same at every run.

// A linear congruential generator.
#[derive(Clone, Copy)]
pub struct Source {
    state: u32,
}

impl Source {
    // The numbers that belong to a seed.
    pub fn new(seed: u32) -> Source {
        Source { state: seed }
    }

    // The next number, below 65,536.
    pub fn draw(&mut self) -> u32 {
        self.state = self
            .state
            .wrapping_mul(1_664_525)
            .wrapping_add(1_013_904_223);
        self.state / 65_536
    }

    // The next number, as a place from 0 to one past the place behind the last of `count` gates.
    pub fn draw_place(&mut self, count: usize) -> usize {
        let places = count.min(64) + 2;
        self.draw() as usize % places
    }
}
