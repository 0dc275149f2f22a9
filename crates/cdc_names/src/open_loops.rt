ghost use Rattle.std.specs.Prelude.{◌≡◌, [], ◌∷◌, ◌++◌, ◌-◌, take, length, None, OnOk};
ghost use Rattle.cdc_names.specs.DoVariables.{opened_as, opened_after};
ghost use Rattle.cdc_names.specs.Privates.{is_index, is_private, in_doall, is_private_in};

use crate::name_use::Role;
use std::alloc::{AllocError, Global};
use std::marker::Model;

/// The names of the open loops, the innermost last, each with what its loop uses it as: the
/// variable of a DO, or the index or a private name of a DOALL.
#[derive(Drop)]
pub struct OpenLoops<'a> {
    names: Vec<(&'a [u8], Role)>,
}

impl<'a> Model for OpenLoops<'a> {
    ghost use Rattle.std.specs.Prelude.{ℕ, List};
    ghost use Rattle.cdc_names.specs.declared.name_use.Role.{Role};
    ghost use Rattle.cdc_names.specs.Entries.{named};

    ghost Value = { List (List ℕ × Role) };

    ghost view = { λ o. named o.names.items };
}

impl<'a> OpenLoops<'a> {
    /// No loop is open.
    pub fn new(alloc: Global) -> OpenLoops<'a>
        ensures { result ≡ [] }
    {
        OpenLoops {
            names: Vec::new(alloc),
        }
    }

    fn open(&mut self, name: &'a [u8], role: Role) -> Result<(), AllocError>
        ensures { OnOk result (self.new ≡ self.old ++ (name.now, role) ∷ []) }
    {
        self.names.push((name, role))?;
        Ok(())
    }

    /// What the innermost open loop of a name uses it as.
    pub fn opened_as(&self, name: &[u8]) -> Option<Role>
        ensures { result ≡ opened_as None name.now self.now }
    {
        let mut role = None;
        for o in self.names.as_slice() {
            if name == o.0 {
                role = Some(o.1);
            }
        }
        role
    }

    /// Whether a DOALL is open.
    pub fn in_doall(&self) -> bool
        ensures { result ≡ in_doall self.now }
    {
        for o in self.names.as_slice() {
            if is_index(o.1) {
                return true;
            }
        }
        false
    }

    /// Whether a name is private in an open DOALL.
    pub fn is_private(&self, name: &[u8]) -> bool
        ensures { result ≡ is_private_in name.now self.now }
    {
        for o in self.names.as_slice() {
            if name == o.0 && is_private(o.1) {
                return true;
            }
        }
        false
    }

    /// Goes past a use of a name.
    pub fn step(&mut self, role: Role, name: &'a [u8]) -> Result<(), AllocError>
        ensures { OnOk result (self.new ≡ opened_after self.old role name.now) }
    {
        match role {
            Role::Counted => self.open(name, role),
            Role::Index => self.open(name, role),
            Role::Private => self.open(name, role),
            Role::Closed => {
                self.names.pop();
                Ok(())
            }
            _ => Ok(()),
        }
    }
}

fn is_index(role: Role) -> bool
    ensures { result ≡ is_index role }
{
    match role {
        Role::Index => true,
        _ => false,
    }
}

fn is_private(role: Role) -> bool
    ensures { result ≡ is_private role }
{
    match role {
        Role::Private => true,
        _ => false,
    }
}
