// Laws of the definitions, each on a function that does nothing.
ghost use Rattle.cdc_task.specs.Laws.{CodeGoesOn};

/// A task of sound code goes on, or ends, at each frame to which it comes: so a step may be made of it.
pub fn goes_on()
    ensures { CodeGoesOn }
{}
