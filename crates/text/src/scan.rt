//! Looking for the first byte of a kind.
ghost use Rattle.std.specs.Prelude.{◌≡◌, ℕ, Bool, drop};
ghost use Rattle.std.specs.List.{before_first, position_or_len};

/// The bytes before the first that passes `test`, and the others: none of them where none passes.
pub fn split_before<F: Fn(u8) -> bool>(bytes: &[u8], test: F) -> (&[u8], &[u8])
    requires { F.IsAlwaysCallable test }
    ensures { (p : ℕ → Bool) → ((b : ℕ) (r : Bool) → F.post test b r → r ≡ p b) →
        (result.0.now ≡ before_first p bytes.now) × (result.1.now ≡ drop (position_or_len p bytes.now) bytes.now) }
{
    let end = bytes.iter().position(|b| test(*b));
    bytes.split_at(end.unwrap_or(bytes.len()))
}
