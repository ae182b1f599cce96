// The two key types of a signalling kit: the number of a rule, and the tag of a train.
ghost use Rattle.std.specs.Prelude.{◌≡◌, ℕ, List, [], ◌∷◌};
ghost use Rattle.order.specs.Keys.{number_hash, scattered, tag_hash};
ghost use Rattle.std.proofs.Common.{rules};

use crate::key::{HashKey, Key};

// The number under which a book keeps a rule.
#[derive(Clone, Copy, Debug, Default, PartialEq, Eq)]
pub struct RuleNumber {
    pub value: u16,
}

// A train by its class letter and its number.
#[derive(Clone, Copy, Debug, PartialEq, Eq)]
pub struct TrainTag {
    pub class: u8,
    pub number: u16,
}

// A word spread over 32 bits: the multiplier is odd, so unlike words stay unlike, and the shift brings its high half down.
fn scatter(word: u32) -> u32
    ensures { result ≡ scattered word }
{
    let product = word.wrapping_mul(0x9e37_79b1);
    product ^ (product >> 16)
}

impl Key for RuleNumber {
    ghost identity = { λ k. k.value ∷ [] };

    ghost same = { Prim.search rules };
}

impl HashKey for RuleNumber {
    ghost hashed = { number_hash };

    fn hash(&self) -> u32 {
        scatter(self.value as u32)
    }
}

impl Key for TrainTag {
    ghost identity = { λ k. k.class ∷ k.number ∷ [] };

    ghost same = { Prim.search rules };
}

impl HashKey for TrainTag {
    ghost hashed = { tag_hash };

    fn hash(&self) -> u32 {
        scatter(self.class as u32 * 0x1_0000 + self.number as u32)
    }
}
