// The first number of a list that fails a test.
ghost use Rattle.std.specs.Prelude.{◌≡◌, ℕ, Bool};
ghost use Rattle.plan_text.specs.Reading.{FailsAs};

// Its place; the test may hang on the place.
pub(crate) fn first_failing<F: Fn(usize, u64) -> bool>(list: &[u64], passes: F) -> Option<usize>
    requires { F.IsAlwaysCallable passes }
    ensures { (test : ℕ → ℕ → Bool) → ((i n : ℕ) (b : Bool) → F.post passes i n b → b ≡ test i n) → FailsAs test list.now result }
{
    for i in 0..list.len() {
        if !passes(i, list[i]) {
            return Some(i);
        }
    }
    None
}
