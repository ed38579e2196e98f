//! ASCII characters at the front of a text.
ghost use Rattle.std.specs.Prelude.{◌≡◌, ◌≢◌, ◌∷◌, ◌<◌, List, ℕ, MatchOption};

/// What follows this character at the front of a text. None where the text doesn't begin with it.
pub(crate) fn strip_ascii(text: &str, first: char) -> Option<&str>
    requires { first < 128 }
    ensures { MatchOption result ((rest : List ℕ) → text.now ≢ first ∷ rest) (λ x. text.now ≡ first ∷ x.now) }
{
    text.strip_prefix(first)
}
