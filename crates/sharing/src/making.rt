// Values made of what a caller lists, by the one call that makes rows. Each domain has its own, to give its own type.
ghost use Rattle.rows.specs.Make.{Makes, MakesValue};
ghost use Rattle.rows.specs.Cores.{Empty as empty};
ghost use Rattle.sharing.specs.Sharing.{read};

use super::groups::Groups;
use domain::Refusal;
use families::Listing;
use rows::Row;

impl Groups {
    // Never, or the value of the groups listed with the empty one. It refuses a width past the largest, then a
    // listed variable that is not below the width.
    pub fn listed(width: u8, groups: Listing) -> Result<Groups, Refusal>
        ensures { MakesValue empty read width groups.entry result }
    {
        let row = Row::listed(width, groups)?;
        Ok(Groups { row })
    }

    // Writes the value that `listed` gives to a place of the caller's, as the rules have it: where that is refused the
    // place is left as it was.
    pub fn make(width: u8, groups: Listing, place: &mut Groups) -> Result<(), Refusal>
        ensures { Makes empty read width groups.entry place.old result place.new }
    {
        *place = Groups::listed(width, groups)?;
        Ok(())
    }
}
