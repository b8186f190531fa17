// The entries.

/// A key and the pointer of its value.
#[derive(Drop)]
pub struct Member<P, K> {
    pub(crate) key: K,
    pub(crate) set: P,
}

/// A value and its number of keys.
#[derive(Drop)]
pub struct Counted<V> {
    pub(crate) value: V,
    pub(crate) size: usize,
}
