//! Reasons for refusals.

#[derive(Clone, Copy, Debug, PartialEq, Eq)]
pub enum Refusal {
    /// More than 200 bytes, not UTF-8, or a control character.
    BadText,
    UnknownCommand,
    MissingWord,
    ExtraWord,
    /// Not only digits, or too large.
    BadNumber,
    UnknownPlace,
    UnknownDocument,
    NameInUse,
    UnknownParagraph,
    DeletedParagraph,
    NotARange,
    InsideTheRange,
    SameDocument,
    UnknownBookmark,
    NothingToUndo,
}

pub fn reason(refusal: Refusal) -> &'static str {
    match refusal {
        Refusal::BadText => "bad text",
        Refusal::UnknownCommand => "unknown command",
        Refusal::MissingWord => "missing word",
        Refusal::ExtraWord => "extra word",
        Refusal::BadNumber => "bad number",
        Refusal::UnknownPlace => "unknown place",
        Refusal::UnknownDocument => "unknown document",
        Refusal::NameInUse => "name in use",
        Refusal::UnknownParagraph => "unknown paragraph",
        Refusal::DeletedParagraph => "deleted paragraph",
        Refusal::NotARange => "not a range",
        Refusal::InsideTheRange => "inside the range",
        Refusal::SameDocument => "same document",
        Refusal::UnknownBookmark => "unknown bookmark",
        Refusal::NothingToUndo => "nothing to undo",
    }
}
