//! Whether the conditions of a model's timing checks let them count, in both languages.
ghost use Rattle.std.specs.Prelude.{◌≡◌, ℕ, Bool, Option};

/// A model with the values of its conditions.
pub trait Conditions {
    /// Whether a condition lets its check count.
    ghost counts: { Self → Option ℕ → Bool };

    /// Whether a condition lets its check count: there is none, or it is 1.
    fn is_enabled(&self, condition: Option<usize>) -> bool
        ensures { result ≡ counts self.now condition };
}
