//! Laws of the definitions that the walk's contract cites: contracts of functions without a body.

ghost use Rattle.std.specs.Prelude.{ℕ, List, []};
ghost use Rattle.kmip_ttlv_items.specs.declared.found.FoundItem.{FoundItem as AnItem};
ghost use Rattle.kmip_ttlv_items.specs.ItemWalks.{Misfits, RootMisfits, HasOneName, Meets, AreBytes, Ends};

/// Whatever is wrong with an item in a structure, or with a root, is exactly one kind of fault.
pub fn a_fault_has_one_name()
    ensures item { (bytes : List ℕ) (p e : ℕ) → HasOneName (Misfits bytes p e) }
    ensures root { (bytes : List ℕ) → HasOneName (RootMisfits bytes) }
{}

/// Every walk ends: from its first step, and from any later one.
pub fn a_walk_ends()
    ensures any { (bytes : List ℕ) → AreBytes bytes → Ends bytes [] }
    ensures further { (bytes : List ℕ) (p : ℕ) (es : List ℕ) (xs : List AnItem) → AreBytes bytes → Meets bytes p es xs → Ends bytes xs }
{}
