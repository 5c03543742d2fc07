// Lines by their numbers.
ghost use Rattle.std.specs.Prelude.{◌≡◌, ◌<◌, ◌≤◌, MatchResult};
ghost use Rattle.gates.specs.Lines.{width};

use gates::WIDTH;

// A line: a number that a line can have.
#[derive(Drop)]
pub(crate) struct Line {
    pub(crate) number: u8,
    ghost below: { number < width },
}

// A number that no line can have.
#[derive(Clone, Copy)]
pub(crate) struct NoLine;

impl TryFrom<usize> for Line {
    type Error = NoLine;

    ghost try_from_gives = { λ number answer. MatchResult answer (λ line. line.number ≡ number) (λ _. width ≤ number) };

    fn try_from(number: usize) -> Result<Line, NoLine> {
        if number < usize::from(WIDTH) {
            Ok(Line {
                number: number as u8,
            })
        } else {
            Err(NoLine)
        }
    }
}
