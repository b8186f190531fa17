//! Words in classes.
ghost use Rattle.std.specs.Prelude.{◌≡◌, ◌↔◌, List, ℕ, Some, None, IsTrue, IsSome, IfSome, IfOk, OnOk, OnErr, string_bytes};
ghost use Rattle.std.specs.Option.{option_map};
ghost use Rattle.equate_commands.specs.WordClasses.{AreEqual, AreKept, AreUnited, IsDropped, IsInClassOf, IsInterned, IsKnown, JoinsClasses, KeepsClasses, KeepsPointers, ListsClass, pointer_of};

use arena_ptr::{AnyPointer, PtrKey, ReallocationError};
use arena_traits::PlainArenaTrait;
use chain_traits::ChainArenaTrait;
use std::alloc::{AllocError, Global};
use std::collections::HashMap;
use std::marker::Model;
use surject_arena::{Counted, KeySet, Member, SurjectArena};

/// Words in classes of equal words.
#[derive(Drop)]
pub struct Equations<
    P: PtrKey,
    A: ChainArenaTrait<P, Member<P, String>> + Drop,
    B: PlainArenaTrait<P, Counted<()>> + Drop,
> {
    table: HashMap<String, P>,
    words: SurjectArena<P, String, (), A, B>,
    alloc: Global,
}

impl<
    P: PtrKey,
    A: ChainArenaTrait<P, Member<P, String>> + Drop,
    B: PlainArenaTrait<P, Counted<()>> + Drop,
> Model for Equations<P, A, B> {
    ghost use Rattle.equate_commands.specs.WordClasses.{Agree, WordClasses, table_of};

    ghost Value = { WordClasses P.Gen };

    ghost view = { λ e. record { table = table_of P.key e.table; arena = e.words } };

    ghost invariant = { λ e. Agree (table_of P.key e.table) e.words };
}

impl<
    P: PtrKey,
    A: ChainArenaTrait<P, Member<P, String>> + Drop,
    B: PlainArenaTrait<P, Counted<()>> + Drop,
> Equations<P, A, B> {
    pub fn new(alloc: Global) -> Self
        ensures { (word : List ℕ) → pointer_of result word ≡ None }
    {
        Equations {
            table: HashMap::new(alloc),
            words: SurjectArena::new(alloc),
            alloc,
        }
    }

    pub fn contains(&self, word: &str) -> bool
        ensures { IsTrue result ↔ IsKnown self.now word.now }
    {
        self.pointer(word).is_some()
    }

    /// Returns whether two words are equal, if both are known.
    pub fn are_equal(&self, a: &str, b: &str) -> Option<bool>
        ensures known { IsSome result ↔ (IsKnown self.now a.now × IsKnown self.now b.now) }
        ensures equal { IfSome result (λ equal. IsTrue equal ↔ AreEqual self.now a.now b.now) }
    {
        match (self.pointer(a), self.pointer(b)) {
            (Some(p), Some(q)) => Some(self.words.in_same_set(p, q)),
            _ => None,
        }
    }

    /// Returns the pointers of the class of `a`, from `a` on, if known.
    pub fn class(&self, a: &str) -> Option<KeySet<'_, P, String, A>>
        ensures known { IsSome result ↔ IsKnown self.now a.now }
        ensures listed { IfSome result (ListsClass self.now a.now) }
    {
        match self.pointer(a) {
            Some(p) => self.words.key_set(p),
            None => None,
        }
    }

    pub fn word(&self, p: P) -> Option<&String>
        ensures { IfSome result (λ word. pointer_of self.now (string_bytes word.now)
            ≡ Some (P.key p)) }
    {
        self.words.get_key(p)
    }

    /// Makes two words known and equal, and returns whether they were not equal.
    ///
    /// # Errors
    ///
    /// - `AllocError`: an allocation or a growth failed; only `a` may have become known.
    pub fn equate(&mut self, a: &str, b: &str) -> Result<bool, AllocError>
        ensures joined { OnOk result (JoinsClasses self.old self.new a.now b.now) }
        ensures two { IfOk result (λ two. IsTrue two
            ↔ (IsInClassOf self.old a.now b.now → ⊥)) }
        ensures pointers { KeepsPointers self.old self.new a.now b.now }
        ensures err { OnErr result (KeepsClasses self.old self.new
            × KeepsPointers self.old self.new a.now a.now) }
    {
        let p = self.intern(a)?;
        let q = self.intern(b)?;
        Ok(self.unite(p, q))
    }

    /// Removes a word and returns whether it was known.
    pub fn drop_word(&mut self, word: &str) -> bool
        ensures known { IsTrue result ↔ IsKnown self.old word.now }
        ensures dropped { IsDropped self.old self.new word.now }
    {
        match self.table.remove(word) {
            Some(p) => {
                self.words.keys_ascend();
                let _ = self.words.remove_key(p);
                true
            }
            None => false,
        }
    }

    fn pointer(&self, word: &str) -> Option<P>
        ensures { option_map P.key result ≡ pointer_of self.now word.now }
    {
        self.table.get(word).copied()
    }

    fn intern(&mut self, word: &str) -> Result<P, AllocError>
        ensures ok { IfOk result (λ p. IsInterned self.old self.new word.now (P.key p)) }
        ensures err { OnErr result (AreKept self.old self.new) }
    {
        let _ = &self.table;
        match self.pointer(word) {
            Some(p) => Ok(p),
            None => self.insert_word(word),
        }
    }

    fn insert_word(&mut self, word: &str) -> Result<P, AllocError>
        requires { pointer_of self.old word.now ≡ None }
        ensures ok { IfOk result (λ p. IsInterned self.old self.new word.now (P.key p)) }
        ensures err { OnErr result (AreKept self.old self.new) }
    {
        let entry = String::from_str(self.alloc, word)?;
        let key = String::from_str(self.alloc, word)?;
        self.table.reserve(1)?;
        self.words.invariants();
        match self.words.insert(key, ()) {
            Ok(p) => match self.table.insert(entry, p) {
                Ok(_) => Ok(p),
                Err(_) => unreachable!(),
            },
            Err(_) => Err(AllocError),
        }
    }

    fn unite(&mut self, p: P, q: P) -> bool
        ensures { (a b : List ℕ) → pointer_of self.old a ≡ Some (P.key p)
            → pointer_of self.old b ≡ Some (P.key q) → AreUnited self.old self.new a b result }
    {
        self.words.invariants();
        self.words.union(p, q).is_some()
    }
}
