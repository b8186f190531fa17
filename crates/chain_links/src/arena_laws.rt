ghost use Rattle.std.specs.Prelude.{◌≤◌, ℕ, List, length, IsSome};
ghost use Rattle.arena_traits.specs.Arena.{IsValid};
ghost use Rattle.arena_traits.specs.Entries.{count};
ghost use Rattle.chain_laws.specs.Chains.{LinkMap, IsMember, AreDistinct};
ghost use Rattle.chain_laws.specs.declared.insert_kind.InsertKind.TheVariants.{NextTo, NextToInx, PrevTo, PrevToInx};
ghost use Rattle.chain_links.specs.Insertions.{MayInsertIn};

use arena_ptr::{AnyPointer, InxKey, PtrKey};
use arena_traits::ArenaTrait;

/// Proves that there are at least as many entries as distinct occupied indexes.
pub fn distinct_entries_fit<P: PtrKey, T: Drop, A: ArenaTrait<P, T>>()
    ensures { (a : A) (xs : List ℕ) → AreDistinct xs
        → ((i : ℕ) → IsMember xs i → IsSome (A.entry a i)) → length xs ≤ count (A.view a) }
{}

/// Proves that links may be inserted next to each valid link.
pub fn valid_links_admit_neighbors<P: PtrKey, T: Drop, A: ArenaTrait<P, T>>()
    ensures pointers { (interlinks : A → LinkMap) (a : A) (p : P)
        → IsValid (A.entry a) (P.key p)
        → MayInsertIn A.state interlinks ⟦<P as AnyPointer>⟧.pointers a (NextTo p)
        × MayInsertIn A.state interlinks ⟦<P as AnyPointer>⟧.pointers a (PrevTo p) }
    ensures indexes { (interlinks : A → LinkMap) (a : A) (i : P.Inx)
        → IsSome (A.entry a (P.Inx.number i))
        → MayInsertIn A.state interlinks ⟦<P as AnyPointer>⟧.pointers a (NextToInx i)
        × MayInsertIn A.state interlinks ⟦<P as AnyPointer>⟧.pointers a (PrevToInx i) }
{}
