//! Renumbering of all links.

ghost use Rattle.std.specs.Prelude.{◌≡◌, ◌≤◌, ◌+◌, length, replicate, OnOk, OnErr, IfOk, All, false, None};
ghost use Rattle.std.specs.Option.{option_map};
ghost use Rattle.chain_links.specs.ChainArena.{entry, value_view, link_map};
ghost use Rattle.chain_links.specs.CanonicalLayouts.{IsCanonicalLayout};
ghost use Rattle.chain_renumbering.specs.Renumbering.{IsRenumbered};
ghost use Rattle.chain_renumbering.specs.MoveTables.{with_move, with_moves, new_key_of};

use arena_base::{ArenaSlot, ArenaTrait};
use arena_ptr::{GenKey, InxKey, PtrKey, SlotStack};
use chain_arena::{ChainArena, LinkNoGen};
use std::alloc::{AllocError, Global};
use std::marker::Model;

/// The new pointers of renumbered links.
#[derive(Drop)]
pub struct Renumbering<P: PtrKey> {
    // By old index less 1: old generation and new pointer.
    table: Vec<Option<(P::Gen, P)>>,
}

impl<P: PtrKey> Model for Renumbering<P> {
    ghost use Rattle.std.specs.Prelude.{List, Option};

    ghost Value = { List (Option (P.Gen × P)) };

    ghost view = { λ r. r.table.items };
}

impl<P: PtrKey> Renumbering<P> {
    /// Returns the new pointer of `p` in O(1), if `p` was valid.
    pub fn new_pointer(&self, p: P) -> Option<P>
        ensures { option_map P.key result ≡ new_key_of P.key P.Gen.same self.now (P.key p) }
    {
        match self.table.get(place_of(p)) {
            Some(Some((generation, q))) if generation.is_same(p.generation()) => Some(*q),
            _ => None,
        }
    }
}

/// Renumbers all links as `compress_canonical` does, in time linear in the slots (not proved).
///
/// Returns the new pointers. Old ones may point to other links once the counter wraps.
///
/// # Errors
///
/// - `AllocError`: an allocation failed. Nothing changes then.
pub fn renumber<P: PtrKey, T: Drop, S: SlotStack<Item = ArenaSlot<P, LinkNoGen<P, T>>>>(
    arena: &mut ChainArena<P, T, S>,
    alloc: Global,
) -> Result<Renumbering<P>, AllocError>
    ensures canonical { OnOk result (IsCanonicalLayout P.Gen.first P.Gen.following false
        (value_view arena.old) (link_map arena.old) (value_view arena.new) (link_map arena.new)) }
    ensures renumbered { IfOk result (λ moved. IsRenumbered P.Gen.first P.Gen.following value_view
        entry link_map arena.old arena.new (new_key_of P.key P.Gen.same moved)) }
    ensures err { OnErr result (arena.new ≡ arena.old) }
{
    let table = empty_table(alloc, arena.backing().len())?;
    match arena.compress_canonical_moves(alloc, false) {
        Ok((_, moves)) => Ok(renumbering_of(table, &moves)),
        Err(_) => Err(AllocError),
    }
}

fn empty_table<P: PtrKey>(alloc: Global, n: usize) -> Result<Vec<Option<(P::Gen, P)>>, AllocError>
    ensures { IfOk result (λ table. table.items ≡ replicate n None) }
{
    let mut table = Vec::new(alloc);
    table.resize(n, None)?;
    Ok(table)
}

fn place_of<P: PtrKey>(p: P) -> usize
    ensures { result + 1 ≡ (P.key p).0 }
{
    match p.inx().try_into_usize() {
        Some(i) => i - 1,
        None => unreachable!(),
    }
}

fn note_move<P: PtrKey>(table: &mut [Option<(P::Gen, P)>], from: P, to: P)
    ensures { table.new ≡ with_move P.key table.old (from, to) }
{
    let i = place_of(from);
    if i < table.len() {
        table[i] = Some((from.generation(), to));
    }
}

fn fill_table<P: PtrKey>(table: &mut [Option<(P::Gen, P)>], moves: &[(P, P)])
    ensures { table.new ≡ with_moves P.key table.old moves.now }
{
    for (from, to) in moves {
        note_move(table, *from, *to);
    }
}

fn renumbering_of<P: PtrKey>(table: Vec<Option<(P::Gen, P)>>, moves: &[(P, P)]) -> Renumbering<P>
    ensures { result ≡ with_moves P.key table.items moves.now }
{
    let mut table = table;
    fill_table(table.as_mut_slice(), moves);
    Renumbering { table }
}
