//! What it is to prefer one element to another.
ghost use Rattle.std.specs.Prelude.{◌≡◌, Bool, true, false};

// An element type with a preference that is total and transitive.
pub trait Preference {
    // `prefers x y`: x is preferred at least as much as y.
    ghost prefers: { Self → Self → Bool };

    fn at_least(&self, other: &Self) -> bool
        ensures { result ≡ prefers self.now other.now };

    ghost total: { (x y : Self) → prefers x y ≡ false → prefers y x ≡ true };

    ghost transitive: { (x y z : Self) → prefers x y ≡ true → prefers y z ≡ true → prefers x z ≡ true };
}
