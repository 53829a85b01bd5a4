// Rows in print: the sets that are read off the words.
use super::cores::Core;
use super::row::Row;
use std::fmt;

impl<K: Core> fmt::Display for Row<K> {
    fn fmt<W: fmt::Write>(&self, f: &mut fmt::Formatter<W>) -> fmt::Result {
        let sets = self.sets();
        write!(f, "{sets}")
    }
}
