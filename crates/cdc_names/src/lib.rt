//! The names of a program unit: which names it declares, and where it uses which names.
#![tactic(auto)]

mod arithmetic;
mod constants;
mod declaration;
mod declared;
mod do_variables;
mod doall_bodies;
mod duplicates;
mod laws;
mod name_lists;
mod name_use;
mod not_constant;
mod open_loops;
mod place;
mod privates;
mod scope;
mod shapes;
mod table;
mod undeclared;
mod walk;

pub use constants::{constant, place_of};
pub use declaration::{Declaration, Label};
pub use declared::{add, declarations};
pub use do_variables::first_do_variable;
pub use doall_bodies::first_doall_body;
pub use duplicates::first_duplicate;
pub use laws::first_places;
pub use name_lists::slot_lists;
pub use name_use::{NameUse, Role};
pub use not_constant::first_not_constant;
pub use place::{is_before, place_if, sooner};
pub use privates::first_not_private;
pub use scope::{Scope, Sort, scope_of, scopes_of};
pub use shapes::{first_shape, low_of};
pub use table::Table;
pub use undeclared::first_undeclared;
pub use walk::unit_uses;
