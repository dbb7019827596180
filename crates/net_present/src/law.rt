ghost use Rattle.net_present.specs.Laws.{FrontsAgree, PresentFollows, PresentTells};

/// The present of a state tells whether an event is enabled.
pub fn the_present_tells()
    ensures fronts { FrontsAgree }
    ensures tells { PresentTells }
{}

/// The present of a state goes on as the state does.
pub fn the_present_follows()
    ensures { PresentFollows }
{}
