//! The one item of a list.

ghost use Rattle.std.specs.Prelude.{◌≡◌, [], ◌∷◌, length};

use std::alloc::Allocator;

/// The item of a list of one.
pub fn the_only<T: Drop, A: Allocator>(items: Vec<T, A>) -> T
    requires { length items.items ≡ 1 }
    ensures { items.items ≡ result ∷ [] }
{
    let mut items = items;
    match items.pop() {
        Some(item) => item,
        None => unreachable!(),
    }
}
