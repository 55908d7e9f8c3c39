// Texts by the class of their bytes.
ghost use Rattle.rulebook.specs.Fields.{up_to};
ghost use Rattle.std.specs.Prelude.{◌≡◌, ℕ, Bool};

// Whether a text has 1 to so many bytes, each of which passes.
pub(crate) fn is_up_to<F: Fn(u8) -> bool>(most: usize, text: &[u8], passes: F) -> bool
    requires { F.IsAlwaysCallable passes }
    ensures { (test : ℕ → Bool) → ((b : ℕ) (r : Bool) → F.post passes b r → r ≡ test b) → result ≡ up_to most test text.now }
{
    (1..=most).contains(&text.len()) && text.iter().all(|byte| passes(*byte))
}
