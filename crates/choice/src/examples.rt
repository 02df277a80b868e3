ghost use Rattle.choice.specs.Examples.{WorkedPages};

/// Pages worked out by hand, as a check of the definitions: it computes nothing, its contract is that the choice
/// gives these pages.
pub fn worked_pages_hold()
    ensures { WorkedPages }
{}
