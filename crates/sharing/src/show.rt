// Values in print, by the one call of what prints rows: the groups that are read off the words.
use super::groups::Groups;
use std::fmt;

impl fmt::Display for Groups {
    fn fmt<W: fmt::Write>(&self, f: &mut fmt::Formatter<W>) -> fmt::Result {
        write!(f, "{}", self.row)
    }
}
