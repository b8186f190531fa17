ghost use Rattle.std.specs.Prelude.{◌≡◌, MatchOption, IsSomeAnd, None, Some};
ghost use Rattle.std.specs.Option.{ForSome};
ghost use Rattle.arena_core.specs.Invalidation.{value_in, value_within, is_overflow, is_overflow_result, invalidation_option, invalidation_result};

/// A value, and whether the counter overflowed to two.
///
/// Port of `InvalidationOption`.
#[derive(Debug, Clone, Copy, PartialEq, Eq, Drop)]
pub enum InvalidationOption<T> {
    Success(T),
    /// Pointers from earlier rounds may be valid again.
    GenerationOverflow(T),
}

/// An `InvalidationOption`, or an invalid pointer or index.
///
/// Port of `InvalidationResult`.
#[derive(Debug, Clone, Copy, PartialEq, Eq, Drop)]
pub enum InvalidationResult<T> {
    Success(T),
    GenerationOverflow(T),
    /// Nothing changed.
    InvalidPtr,
}

impl<T> InvalidationOption<T> {
    /// Returns `t` with this overflow.
    pub fn from_overflow(overflow: bool, t: T) -> Self
        ensures { result ≡ invalidation_option overflow t }
    {
        if overflow {
            Self::GenerationOverflow(t)
        } else {
            Self::Success(t)
        }
    }

    /// Returns the value.
    pub fn allow(self) -> T
        ensures { result ≡ value_in self }
    {
        self.overflowing().0
    }

    /// Returns the value and the overflow.
    pub fn overflowing(self) -> (T, bool)
        ensures { result ≡ (value_in self, is_overflow self) }
    {
        match self {
            Self::Success(t) => (t, false),
            Self::GenerationOverflow(t) => (t, true),
        }
    }

    /// Applies `f` to the value.
    pub fn map<U, F: FnOnce(T) -> U>(self, f: F) -> InvalidationOption<U>
        requires { F.pre f (value_in self) }
        ensures value { F.post f (value_in self) (value_in result) }
        ensures overflow { is_overflow result ≡ is_overflow self }
    {
        match self {
            Self::Success(t) => InvalidationOption::Success(f(t)),
            Self::GenerationOverflow(t) => InvalidationOption::GenerationOverflow(f(t)),
        }
    }
}

impl<T> InvalidationResult<T> {
    /// Returns `t` with this overflow.
    pub fn from_overflow(overflow: bool, t: T) -> Self
        ensures { result ≡ invalidation_result overflow (Some t) }
    {
        if overflow {
            Self::GenerationOverflow(t)
        } else {
            Self::Success(t)
        }
    }

    /// Returns the value, or `None` for `InvalidPtr`.
    pub fn allow(self) -> Option<T>
        ensures { result ≡ value_within self }
    {
        self.overflowing().0
    }

    /// Returns the value and the overflow, or `(None, false)` for `InvalidPtr`.
    pub fn overflowing(self) -> (Option<T>, bool)
        ensures { result ≡ (value_within self, is_overflow_result self) }
    {
        match self {
            Self::Success(t) => (Some(t), false),
            Self::GenerationOverflow(t) => (Some(t), true),
            Self::InvalidPtr => (None, false),
        }
    }

    /// Applies `f` to the value.
    pub fn map<U, F: FnOnce(T) -> U + Drop>(self, f: F) -> InvalidationResult<U>
        requires { ForSome (value_within self) (F.pre f) }
        ensures value { MatchOption (value_within self) (value_within result ≡ None)
            (λ t. IsSomeAnd (value_within result) (F.post f t)) }
        ensures overflow { is_overflow_result result ≡ is_overflow_result self }
    {
        match self {
            Self::Success(t) => InvalidationResult::Success(f(t)),
            Self::GenerationOverflow(t) => InvalidationResult::GenerationOverflow(f(t)),
            Self::InvalidPtr => InvalidationResult::InvalidPtr,
        }
    }
}
