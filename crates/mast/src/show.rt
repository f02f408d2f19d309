//! A mast as text.
ghost use Rattle.std.specs.Prelude.{Some};
ghost use Rattle.mast.specs.Texts.{mast_text};

use crate::record::Mast;
use std::fmt;

/// `mast`, the number and the name, with tabs between them.
impl fmt::Display for Mast {
    ghost output = { λ m. Some (mast_text m) };

    fn fmt<W: fmt::Write>(&self, f: &mut fmt::Formatter<W>) -> fmt::Result {
        let number = self.number;
        let name = self.text();
        write!(f, "mast\t{number}\t{name}")
    }
}
