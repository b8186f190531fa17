//! Refusals.

/// A refused line changes nothing.
#[derive(Clone, Copy, Debug, PartialEq, Eq)]
pub enum Refusal {
    BadText,
    UnknownCommand,
    MissingWord,
    ExtraWord,
    BadNumber,
    UnknownName,
    NameInUse,
    AlreadyBlocked,
    NobodyWaits,
}

pub fn reason(refusal: Refusal) -> &'static str {
    match refusal {
        Refusal::BadText => "bad text",
        Refusal::UnknownCommand => "unknown command",
        Refusal::MissingWord => "missing word",
        Refusal::ExtraWord => "extra word",
        Refusal::BadNumber => "bad number",
        Refusal::UnknownName => "unknown name",
        Refusal::NameInUse => "name in use",
        Refusal::AlreadyBlocked => "already blocked",
        Refusal::NobodyWaits => "nobody waits",
    }
}
