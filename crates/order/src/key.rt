// A key is known by its identity, a list of whole numbers; a hashed key also gives a hash.
ghost use Rattle.std.specs.Prelude.{◌≡◌, ℕ, true, List};

// A key by its identity.
pub trait Key: Copy + Eq {
    ghost identity: { Self → List ℕ };

    // `==` says yes exactly when two identities are equal, and then the keys are equal in every part
    ghost same: { (a b : Self) → (Self.eq a b ≡ true → a ≡ b) × (identity a ≡ identity b → Self.eq a b ≡ true) };
}

// A key that also gives a hash, fixed by its identity alone.
pub trait HashKey: Key {
    ghost hashed: { List ℕ → ℕ };

    fn hash(&self) -> u32
        ensures { result ≡ hashed (Self.Key.identity self.now) };
}
