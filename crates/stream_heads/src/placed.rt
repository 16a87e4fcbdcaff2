ghost use Rattle.std.specs.Prelude.{◌≡◌, ◌≤◌, ◌↔◌, ℤ, Bool, List, IsTrue, length};
ghost use Rattle.std.specs.Bool.{Decides};

use stream_index::Key;

/// What is looked up by a key of its own, and told apart from others.
pub trait Placed: Drop {
    ghost key: { Self → List ℤ };

    ghost eq: { Self → Self → Bool };

    /// Its key.
    fn key(&self) -> Key
        ensures value { result ≡ key self.now }
        ensures short { length result ≤ 4 };

    /// Whether the two are the same.
    fn same(&self, other: &Self) -> bool
        ensures { IsTrue result ↔ (self.now ≡ other.now) };

    ghost tells: { (one other : Self) → Decides (eq one other) (one ≡ other) };
}
