// Values made of what a caller lists, by the one call that makes rows. Each domain has its own, to give its own type.
ghost use Rattle.rows.specs.Cores.{Full as full};
ghost use Rattle.rows.specs.Make.{Makes, MakesValue};
ghost use Rattle.formulas.specs.Formulas.{read};

use super::models::Models;
use domain::Refusal;
use families::Listing;
use rows::Row;

impl Models {
    // Never, or the value of the models listed with that of all variables. It refuses a width past the largest, then a
    // listed variable that is not below the width.
    pub fn listed(width: u8, models: Listing) -> Result<Models, Refusal>
        ensures { MakesValue full read width models.entry result }
    {
        let row = Row::listed(width, models)?;
        Ok(Models { row })
    }

    // Writes the value that `listed` gives to a place of the caller's, as the rules have it: where that is refused the
    // place is left as it was.
    pub fn make(width: u8, models: Listing, place: &mut Models) -> Result<(), Refusal>
        ensures { Makes full read width models.entry place.old result place.new }
    {
        *place = Models::listed(width, models)?;
        Ok(())
    }
}
