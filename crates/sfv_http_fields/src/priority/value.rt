//! The value of the Priority field.

ghost use Rattle.std.specs.Prelude.{◌≡◌, ◌≤◌, false};

/// The urgency of a response, and whether it is processed incrementally. `Default` is the urgency 3, and `false`.
#[derive(Clone, Copy, Debug, PartialEq, Eq)]
pub struct Priority {
    /// The urgency, from 0 (the most urgent) to 7.
    pub urgency: u8,
    /// The client can process the response incrementally, as it arrives.
    pub incremental: bool,
    pub ghost valid: { urgency ≤ 7 },
}

impl Priority {
    /// Creates a priority. The urgency is from 0 to 7.
    pub fn new(urgency: u8, incremental: bool) -> Priority
        requires { urgency ≤ 7 }
        ensures urgency { result.urgency ≡ urgency }
        ensures incremental { result.incremental ≡ incremental }
    {
        Priority {
            urgency,
            incremental,
        }
    }
}

impl Default for Priority {
    ghost is_default = { λ p. (p.urgency ≡ 3) × (p.incremental ≡ false) };

    fn default() -> Priority {
        Priority::new(3, false)
    }
}
