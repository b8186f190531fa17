ghost use Rattle.std.specs.Prelude.{◌≡◌, None};
ghost use Rattle.std.specs.Option.{option_map};
ghost use Rattle.chain_laws.specs.Walks.{step_forward, step_back};

use arena_ptr::InxKey;

/// Returns the next link, unless the walk started there.
pub fn step_on<I: InxKey>(start: I, next: Option<I>) -> Option<I>
    ensures { option_map I.number result ≡ step_forward (I.number start)
        (option_map I.number next) }
{
    match next {
        Some(k) => if k.is_same(start) { None } else { Some(k) },
        None => None,
    }
}

/// Returns a walk's next step, and the one backwards from the end.
pub fn step_both<I: InxKey>(start: I, next: Option<I>, back: Option<I>) -> (Option<I>, Option<I>)
    ensures on { option_map I.number result.0 ≡ step_forward (I.number start)
        (option_map I.number next) }
    ensures back { option_map I.number result.1 ≡ step_back (I.number start)
        (option_map I.number next) (option_map I.number back) }
{
    match next {
        Some(k) => if k.is_same(start) {
            nowhere()
        } else {
            (Some(k), back)
        },
        None => (None, back),
    }
}

#[cold]
#[inline(never)]
fn nowhere<I: InxKey>() -> (Option<I>, Option<I>)
    ensures { result ≡ (None, None) }
{
    (None, None)
}
