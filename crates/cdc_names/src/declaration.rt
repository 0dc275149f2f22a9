ghost use Rattle.std.specs.Prelude.{◌≡◌};

use cdc_base::Place;
use cdc_tree::{Bound, Named, Tree};
use std::marker::Model;

/// A name where it stands.
#[derive(Drop)]
pub struct Label<'a> {
    pub named: &'a Named,
}

impl<'a> Model for Label<'a> {
    ghost use Rattle.cdc_tree.specs.declared.tree.Named.{Named};

    ghost Value = { Named };

    ghost view = { λ l. l.named.now };
}

impl<'a> Label<'a> {
    pub fn name(&self) -> &'a [u8]
        ensures { result.now ≡ self.now.name }
    {
        self.named.name.as_slice()
    }

    pub fn place(&self) -> Place
        ensures { result ≡ self.now.place }
    {
        self.named.place
    }
}

/// A declared name: a variable with its bounds, or a PARAMETER with its value.
#[derive(Drop)]
pub struct Declaration<'a> {
    pub named: &'a Named,
    pub bounds: &'a [Bound],
    pub value: Option<&'a Tree>,
}
