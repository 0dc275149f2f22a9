/// What stands at a point of a unit's flow graph: an access by the number of its site, the entry or the exit of a DOALL
/// by the number of the DOALL, a CALL by its number in the program, or nothing.
#[derive(Clone, Copy, Debug, PartialEq, Eq)]
pub enum Point {
    Read(u32),
    Write(u32),
    Entry(u32),
    Exit(u32),
    Call(u32),
    Plain,
}
