use arena_ptr::PtrKey;
use chain_laws::insert_kind::InsertKind;

/// The kinds of insertion.
///
/// Port of `LinkInsertKind`.
pub type LinkInsertKind<P> = InsertKind<P, <P as PtrKey>::Inx>;
