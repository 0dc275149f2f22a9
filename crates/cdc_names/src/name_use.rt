ghost use Rattle.std.specs.Prelude.{◌≡◌};
ghost use Rattle.cdc_names.specs.Used.{used};

use cdc_base::Place;
use cdc_tree::Named;
use std::marker::Model;

/// What a use does with its name.
#[derive(Clone, Copy, Debug, PartialEq, Eq)]
pub enum Role {
    /// Its value is read.
    Read,
    /// An assignment stores into it.
    Assigned,
    /// A READ stores into it.
    Input,
    /// It is a whole actual argument.
    Actual,
    /// It is in the dummy list of its unit.
    Dummy,
    /// It is the variable of a DO, which begins here.
    Counted,
    /// It is the index of a DOALL, which begins here.
    Index,
    /// It is private in a DOALL, which begins here.
    Private,
    /// The DO or DOALL that has it as variable, index or private name ends here.
    Closed,
}

/// A name at a place, with its number of subscripts.
#[derive(Drop)]
pub struct NameUse<'a> {
    pub name: &'a [u8],
    pub place: Place,
    pub role: Role,
    pub subs: usize,
}

impl<'a> Model for NameUse<'a> {
    ghost use Rattle.cdc_names.specs.Used.{Used, seen};

    ghost Value = { Used };

    ghost view = { λ u. seen u.name.now u.place u.role u.subs };
}

impl<'a> NameUse<'a> {
    /// A use of this name where it stands.
    pub fn new(named: &'a Named, role: Role, subs: usize) -> NameUse<'a>
        ensures { result ≡ used named.now role subs }
    {
        NameUse {
            name: named.name.as_slice(),
            place: named.place,
            role,
            subs,
        }
    }
}
