/// A command by its words. Names of files are neither empty nor do they begin with `-`.
#[derive(Clone, Copy, Debug, PartialEq, Eq)]
pub enum Command<'a> {
    /// `run PROG INPUT SCHED`: the names of the files of a program, of its input and of a schedule.
    Run(&'a str, &'a str, &'a str),
    /// `check PROG`: the name of a program's file.
    Check(&'a str),
    /// `marks PROG`: the name of a program's file.
    Marks(&'a str),
    /// `code PROG`: the name of a program's file.
    Code(&'a str),
    /// `seq PROG INPUT`: the names of the files of a program and of its input.
    Seq(&'a str, &'a str),
    /// `bench N`: a number from 1 to 1000.
    Bench(u16),
}
