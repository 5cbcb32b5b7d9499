ghost use Rattle.std.specs.Prelude.{◌≡◌, ℕ};

// An entry of a log, which is found by its key.
pub trait Keyed {
    ghost key: { Self → ℕ };

    // What the entry is found by.
    fn key(&self) -> u32
        ensures { result ≡ key self.now };
}
