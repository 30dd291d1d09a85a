// Cases worked out by hand, shown of the definitions: designs with their frames, products, a card, a block, and a design that the link
// turns away.
#![tactic(auto)]

ghost use Rattle.worked.specs.Cases.{AllHold, cases};

pub fn worked_cases_hold()
    ensures { AllHold cases }
{}
