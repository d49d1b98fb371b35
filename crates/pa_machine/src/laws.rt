ghost use Rattle.pa_machine.specs.Trail.{SealedFreesReturn};

/// The law that a Free of a sealed Own gives its title back at once: there is no Ref that could be reset after it.
pub fn sealed_frees_return()
    ensures { SealedFreesReturn }
{}
