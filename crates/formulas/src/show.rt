// Values in print, by the one call of what prints rows: the models that are read off the words.
use super::models::Models;
use std::fmt;

impl fmt::Display for Models {
    fn fmt<W: fmt::Write>(&self, f: &mut fmt::Formatter<W>) -> fmt::Result {
        write!(f, "{}", self.row)
    }
}
