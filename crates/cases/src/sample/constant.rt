// A key type whose hash is the same for every key: slower, and no answer is another.
ghost use Rattle.std.specs.Prelude.{ℕ, List, [], ◌∷◌};
ghost use Rattle.std.proofs.Common.{rules};

use crate::sample::Sample;
use order::key::{HashKey, Key};

#[derive(Clone, Copy, Debug, PartialEq, Eq)]
pub struct Same {
    pub value: u16,
}

impl Key for Same {
    ghost identity = { λ k. k.value ∷ [] };

    ghost same = { Prim.search rules };
}

impl HashKey for Same {
    ghost hashed = { λ _. 7 };

    fn hash(&self) -> u32 {
        7
    }
}

impl Sample for Same {
    fn sample(n: u16) -> Same {
        Same { value: n }
    }
}
