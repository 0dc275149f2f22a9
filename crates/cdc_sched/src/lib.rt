//! Schedule files: the header, which says on what machine a program is run, and the events.
#![tactic(auto)]

mod event;
mod event_line;
mod events;
mod fit;
mod header;
mod header_line;
mod kept;
pub mod laws;
mod line;
mod listed;
mod listed_line;
mod phrase;
mod read;
mod tail;

pub use event::Event;
pub use events::{EventRefusal, Events};
pub use header::{Geometry, Header, SchemeName, TailKind};
pub use listed::Listed;
pub use read::{HeaderRefusal, read_header};
pub use tail::Tail;
