//! Renumbering of documents.

ghost use Rattle.std.specs.Prelude.{◌≡◌, IfOk, OnErr};
ghost use Rattle.std.specs.Option.{option_map};
ghost use Rattle.chain_renumbering.specs.MoveTables.{new_key_of};
ghost use Rattle.chain_renumbering.specs.Renumbering.{IsRenumbered};
ghost use Rattle.documents.specs.Renumbering.{MovesDocuments};

use arena_ptr::{GenKey, PtrKey};
use chain_renumbering::{RenumberChainArenaTrait, Renumbering};
use chain_traits::ChainArenaTrait;
use linked_lists::{Entry, LinkedLists as Documents, ListHandle as Document};
use std::alloc::{AllocError, Global};

/// Renumbers all documents and returns the new pointer of each handle and paragraph.
///
/// The documents are in runs of indexes, one after another from index 1, each with its paragraphs
/// in order. Replace all handles and pointers (`moved_document`, `Renumbering::new_pointer`): an
/// old one may point to another paragraph once the generation counter wraps.
///
/// # Errors
///
/// - `AllocError`: an allocation failed; nothing changes.
pub fn renumber<P: PtrKey, T: Drop, A: RenumberChainArenaTrait<P, Entry<T>> + Drop>(
    documents: &mut Documents<P, T, A>,
    alloc: Global,
) -> Result<Renumbering<P>, AllocError>
    ensures renumbered { IfOk result (λ moved. IsRenumbered P.Gen.first P.Gen.following A.view
        A.entry A.interlinks documents.old documents.new (new_key_of P.key P.Gen.same moved)) }
    ensures documents { IfOk result (λ moved. MovesDocuments A.state A.interlinks documents.old
        documents.new (new_key_of P.key P.Gen.same moved)) }
    ensures err { OnErr result (documents.new ≡ documents.old) }
{
    let mut arena = documents.replace_arena(A::new(alloc));
    let moved = arena.renumber(alloc);
    documents.replace_arena(arena);
    moved
}

/// Returns the new handle of a renumbered document, or `None` if there is none.
pub fn moved_document<P: PtrKey>(moved: &Renumbering<P>, d: Document<P>) -> Option<Document<P>>
    ensures { option_map (λ e. P.key e.head) result ≡ new_key_of P.key P.Gen.same moved.now
        (P.key d.head) }
{
    match moved.new_pointer(d.head) {
        Some(head) => Some(Document { head }),
        None => None,
    }
}
