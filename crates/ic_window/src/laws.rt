// Laws of windows and waiting times. Each is the contract of a function with an empty body.
ghost use Rattle.ic_window.specs.Laws.{GrowthAdds, GrowthKeeps, WaitsRise};

/// Freeing packets one after another gives the same window as freeing them together.
pub fn growth_adds()
    ensures { GrowthAdds }
{}

/// Freeing packets never makes a window smaller.
pub fn growth_keeps()
    ensures { GrowthKeeps }
{}

/// Each further try waits at least as long as the one before, and at most twice as long.
pub fn waits_rise()
    ensures { WaitsRise }
{}
