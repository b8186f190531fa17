ghost use Rattle.std.specs.Prelude.{◌≡◌};

use crate::ptr::PtrInx;
use std::fmt;
use std::marker::PhantomData;

/// An optional index of type `I` in a word `W`, packed by `InxKey::pack`.
#[derive(Clone, Copy)]
#[derive_where(PartialEq, Eq, PartialOrd, Ord, Hash; W)]
pub struct PackedOption<I, W> {
    word: W,
    marker: PhantomData<I>,
}

impl<I, W: Copy> PackedOption<I, W> {
    /// Returns the optional index that `word` encodes.
    pub fn new(word: W) -> Self
        ensures { result.word ≡ word }
    {
        PackedOption {
            word,
            marker: PhantomData,
        }
    }

    /// Returns the word.
    pub fn word(self) -> W
        ensures { result ≡ self.word }
    {
        self.word
    }
}

impl<W: Copy, I: PtrInx<Word = W>> fmt::Debug for PackedOption<I, W> {
    ghost use Rattle.std.specs.Prelude.{Option};
    ghost use Rattle.std.specs.Option.{option_map};
    ghost use Rattle.std.specs.Fmt.{DisplaysOnOk, debug_option};

    fn fmt<F: fmt::Write>(&self, f: &mut fmt::Formatter<F>) -> fmt::Result
        ensures { (i : Option I) → option_map I.number i ≡ I.packed_number self.now
            → DisplaysOnOk F.write_str_gives f.old result (debug_option I.debug_output i) f.new }
    {
        fmt::Debug::fmt(&I::unpack(*self), f)
    }
}
