//! A value that writes what of a format reaches it.

use std::fmt;

/// Writes its trait's name, then `#` for the alternate flag, and `!` for a width, a precision or a
/// sign.
#[derive(Clone, Copy)]
pub struct FormatProbe;

fn write_word<W: fmt::Write>(f: &mut fmt::Formatter<W>, word: &str) -> fmt::Result {
    let is_wide = f.width().is_some() || f.precision().is_some() || f.sign_plus();
    let marks = match (f.alternate(), is_wide) {
        (false, false) => "",
        (true, false) => "#",
        (false, true) => "!",
        (true, true) => "#!",
    };
    f.write_str(word)?;
    f.write_str(marks)
}

impl fmt::Debug for FormatProbe {
    fn fmt<W: fmt::Write>(&self, f: &mut fmt::Formatter<W>) -> fmt::Result {
        write_word(f, "debug")
    }
}

impl fmt::Display for FormatProbe {
    fn fmt<W: fmt::Write>(&self, f: &mut fmt::Formatter<W>) -> fmt::Result {
        write_word(f, "display")
    }
}
