ghost use Rattle.std.specs.Prelude.{◌≡◌, ◌≢◌, ℕ, None};
ghost use Rattle.std.specs.Option.{option_map};
ghost use Rattle.arena_traits.specs.Entries.{without_index, view_with_value};

use crate::traits::ArenaTrait;
use arena_core::PtrKey;

/// Proves that the entry list determines each entry (`same`), also after a removal (`gone`,
/// `kept`).
pub fn entries_determine_occupancy<P: PtrKey, T: Drop, A: ArenaTrait<P, T>>()
    ensures same { (a b : A) (i : ℕ) → (A.view b).entries ≡ (A.view a).entries
        → A.entry b i ≡ A.entry a i }
    ensures gone { (a b : A) (i : ℕ) → (A.view b).entries ≡ without_index i (A.view a).entries
        → A.entry b i ≡ None }
    ensures kept { (a b : A) (i j : ℕ)
        → (A.view b).entries ≡ without_index i (A.view a).entries
        → j ≢ i → A.entry b j ≡ A.entry a j }
{}

/// Proves that a write changes one value (`there`) and no other entry (`elsewhere`).
pub fn writes_change_one_value<P: PtrKey, T: Drop, A: ArenaTrait<P, T>>()
    ensures there { (a b : A) (i : ℕ) (t : T) → A.view b ≡ view_with_value (A.view a) i t
        → A.entry b i ≡ option_map (λ e. (e.0, t)) (A.entry a i) }
    ensures elsewhere { (a b : A) (i j : ℕ) (t : T) → A.view b ≡ view_with_value (A.view a) i t
        → j ≢ i → A.entry b j ≡ A.entry a j }
{}
