//! Laws of documents.

ghost use Rattle.documents.specs.Histories.{CallsMakeChanges, CallsKeepParagraphs};

use arena_ptr::{AnyPointer, PtrKey};
use chain_traits::ChainArenaTrait;
use linked_lists::{Entry, ListHandle};

/// States that each call that succeeds makes a change, of those that `calls_keep_paragraphs` is
/// about.
pub fn calls_make_changes<P: PtrKey, T: Drop, A: ChainArenaTrait<P, Entry<T>>>()
    ensures { CallsMakeChanges A.state A.interlinks ⟦<P as AnyPointer>⟧.pointers
        (λ (d : ListHandle P P.Inx P.Gen P.Inx.Word). P.key d.head) }
{}

/// States that after any calls each earlier paragraph is in exactly one document, at one place,
/// unless a call removed it, alone or with its document.
pub fn calls_keep_paragraphs<P: PtrKey, T: Drop, A: ChainArenaTrait<P, Entry<T>>>()
    ensures { CallsKeepParagraphs A.state A.interlinks ⟦<P as AnyPointer>⟧.pointers }
{}
