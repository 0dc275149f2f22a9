//! What a scheme of cache coherence is: how it stamps cached words, which copies it lets a read use, and what a boundary
//! between epochs does.
#![tactic(auto)]

mod direct;
mod laws;
mod scheme;
mod width;

pub use direct::Direct;
pub use laws::copies_are_young;
pub use scheme::Scheme;
pub use width::largest;
