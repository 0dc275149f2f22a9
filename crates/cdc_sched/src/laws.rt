// Laws of the definitions, each on a function that does nothing.
ghost use Rattle.cdc_sched.specs.OneHeader.{OneHeader, OneRefusal};

/// A schedule file has at most one header and at most one line that is refused, and never both.
pub fn one_header()
    ensures header { OneHeader }
    ensures refusal { OneRefusal }
{}
