// A stream of draws: Marsaglia's 32-bit xorshift. One seed gives the same draws everywhere.
#![tactic(auto)]

ghost use Rattle.std.specs.Prelude.{◌≡◌, ◌<◌};
ghost use Rattle.draws.specs.Draws.{drawn, within};

// The state is the latest draw.
#[derive(Clone, Copy)]
pub struct Draws {
    state: u32,
}

impl Draws {
    // The draws that start from 1.
    pub fn new() -> Draws
        ensures { result.state ≡ 1 }
    {
        Draws::seeded(1)
    }

    // The draws that start from a seed; from 0 each is 0.
    pub fn seeded(seed: u32) -> Draws
        ensures { result.state ≡ seed }
    {
        Draws { state: seed }
    }

    // Takes one draw.
    pub fn next(&mut self) -> u32
        ensures draw { result ≡ drawn self.old.state }
        ensures state { self.new.state ≡ result }
    {
        self.state ^= self.state << 13;
        self.state ^= self.state >> 17;
        self.state ^= self.state << 5;
        self.state
    }

    // Takes one draw, and makes a number below `n` of it; below 0 there is none, and it is 0.
    pub fn below(&mut self, n: u32) -> u32
        ensures draw { result ≡ within n self.new.state }
        ensures below { 0 < n → result < n }
        ensures state { self.new.state ≡ drawn self.old.state }
    {
        self.next().checked_rem(n).unwrap_or(0)
    }
}
