// What the journal has, and what a post is answered.
use plan_facts::Memory;
use std::alloc::Global;

/// What a post carries.
pub trait Kept: Sized + Drop + Send {
    ghost use Rattle.std.specs.Prelude.{◌≡◌, IfOk};

    /// An equal value.
    fn copy(&self, alloc: Global) -> Result<Self, Memory>
        ensures { IfOk result (λ copy. copy ≡ self.now) };
}

/// One entry of the journal, under the number of the seat that made it.
#[derive(Drop)]
pub enum Entry<T> {
    /// A post. Its number counts the posts of its seat, from 0.
    Post { seat: u32, number: u32, body: T },
    /// A cut, at a boundary.
    Cut { seat: u32, boundary: u32 },
    /// From here on no post is stored.
    Shut { seat: u32 },
}

/// What became of a post.
#[derive(Drop)]
pub enum PostAnswer<T> {
    /// It stands in the journal, under this number of its seat.
    Stored(u32),
    /// The journal has all its posts. The body comes back.
    Full(T),
    /// The journal was shut. The body comes back.
    Shut(T),
}
