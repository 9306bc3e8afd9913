// The two sides of the game. Ours chooses the existential variables and wants every clause true;
// the device chooses the universal ones and wants some clause false.
ghost use Rattle.std.specs.Prelude.{◌≡◌};
ghost use Rattle.formula.specs.Game.{other};

#[derive(Clone, Copy, PartialEq, Eq, Debug)]
pub enum Side {
    Ours,
    Device,
}

impl Side {
    // Sides alternate from level to level: this is the side of the level after.
    pub fn other(self) -> Side
        ensures { result ≡ other self }
    {
        match self {
            Side::Ours => Side::Device,
            Side::Device => Side::Ours,
        }
    }
}
