use cdc_base::List;
use cdc_prog::Dim;

/// A variable that has memory of its own, before it has a place there.
#[derive(Drop)]
pub struct Shape {
    /// The unit that declares it, by its number from 0.
    pub unit: u32,
    pub name: List<u8>,
    /// No dimension for a scalar.
    pub dims: List<Dim>,
}

/// What is numbered in the order of the statements: sites, DOALL loops and texts.
#[derive(Drop)]
pub struct Progress {
    /// The last site.
    pub sites: u32,
    /// The number of the last DOALL.
    pub doalls: u32,
    /// The texts of PRINT items.
    pub texts: List<List<u8>>,
}
