ghost use Rattle.std.specs.Iterator.{ActsAsAt};
ghost use Rattle.std.specs.List.{prefix_len};
ghost use Rattle.std.specs.Prelude.{◌≡◌, ℕ, Bool, drop, take};

// The bytes that come first and pass the test, and the rest.
pub(crate) fn split_while<'a, F: FnMut(&u8) -> bool>(
    bytes: &'a [u8],
    passes: F,
) -> (&'a [u8], &'a [u8])
    requires { (f : _) (x : _) → F.pre f x }
    ensures front { (p : ℕ → Bool) → ActsAsAt F.FnMut passes p → result.0.now ≡ take (prefix_len p bytes.now) bytes.now }
    ensures back { (p : ℕ → Bool) → ActsAsAt F.FnMut passes p → result.1.now ≡ drop (prefix_len p bytes.now) bytes.now }
{
    bytes.split_at(bytes.iter().copied().take_while(passes).count())
}
