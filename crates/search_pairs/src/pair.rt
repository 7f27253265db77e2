ghost use Rattle.std.specs.Prelude.{◌≤◌};
ghost use Rattle.sheet.specs.Entry.{kind_number};

use crate::Route;
use sheet::Kind;

// Two paths by their links, with the kind of the entry that compares them: same or differ.
#[derive(Clone, Copy)]
pub struct Pair {
    pub kind: Kind,
    pub first: Route,
    pub second: Route,
    pub ghost compares: { 5 ≤ kind_number kind },
}
