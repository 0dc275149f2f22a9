// Laws of the definitions, each on a function that does nothing.
ghost use Rattle.cdc_epoch.specs.EngineLaws.{HeldTasksGoOn};

/// On sound code each task that a processor holds goes on or ends, so an event can be applied.
pub fn held_tasks()
    ensures { HeldTasksGoOn }
{}
