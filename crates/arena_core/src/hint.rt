ghost use Rattle.std.specs.Prelude.{IsTrue};

/// Gives LLVM a proved fact.
///
/// Std's `assert_unchecked` compiles to nothing; here a false fact writes to an empty array.
#[inline(always)]
pub fn assume_proved(fact: bool)
    requires { IsTrue fact }
    ensures { IsTrue fact }
{
    if !fact {
        let none: [&mut u8; 0] = [];
        *none[0] = 0;
    }
}

/// Marks an unreachable branch, without the jump of `unreachable!()`.
#[macro_export]
macro_rules! proved_unreachable {
    () => {{
        $crate::assume_proved(false);
        unreachable!()
    }};
}
