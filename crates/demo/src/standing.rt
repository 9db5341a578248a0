// A player's standing after a round.
ghost use Rattle.std.specs.Prelude.{Some};
ghost use Rattle.demo.specs.Standings.{points_text, standing_text};

use std::fmt;

// Points, counted in halves: a win is two, a draw one.
#[derive(Clone, Copy)]
pub struct Points {
    pub halves: u8,
}

#[derive(Clone, Copy)]
pub struct Standing {
    pub player: &'static str,
    pub round: u8,
    pub points: Points,
}

// As in `1.5`.
impl fmt::Display for Points {
    ghost output = { λ p. Some (points_text p) };

    fn fmt<W: fmt::Write>(&self, f: &mut fmt::Formatter<W>) -> fmt::Result {
        write!(f, "{}.{}", self.halves / 2, self.halves % 2 * 5)
    }
}

// As in `round 2, Anna 1.5`.
impl fmt::Display for Standing {
    ghost output = { λ s. Some (standing_text s) };

    fn fmt<W: fmt::Write>(&self, f: &mut fmt::Formatter<W>) -> fmt::Result {
        write!(f, "round {}, {} {}", self.round, self.player, self.points)
    }
}
