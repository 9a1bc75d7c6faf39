//! Numbers that come out by chance, but the same in each run.
ghost use Rattle.std.specs.Prelude.{◌<◌};

/// A linear congruential generator (Knuth, The Art of Computer Programming, volume 2, section 3.3.4: the factor of MMIX).
#[derive(Drop)]
pub(crate) struct Dice {
    state: u64,
}

const FACTOR: u64 = 6_364_136_223_846_793_005;

const STEP: u64 = 1_442_695_040_888_963_407;

impl Dice {
    pub(crate) fn new(seed: u64) -> Dice {
        Dice { state: seed }
    }

    /// A number below another.
    pub(crate) fn below(&mut self, sides: u64) -> u64
        requires some { 0 < sides }
        ensures below { result < sides }
    {
        self.state = self.state.wrapping_mul(FACTOR).wrapping_add(STEP);
        (self.state >> 33) % sides
    }

    /// A number from 1 to another.
    pub(crate) fn number(&mut self, most: u64) -> u64 {
        if most == 0 {
            return 0;
        }
        self.below(most).saturating_add(1)
    }

    /// One of the lines of a text.
    pub(crate) fn line<'a>(&mut self, lines: &'a str) -> &'a str {
        let drawn = self.number(lines.lines().count() as u64);
        let place = drawn.saturating_sub(1) as usize;
        lines.lines().nth(place).unwrap_or_default()
    }
}
