// How long the listing of a file can be.
#![tactic(auto)]

ghost use Rattle.listing_room.specs.Laws.{AllLaws};

// The claims of `specs/Laws.antt` hold. Empty body: the contract makes the checker prove them.
pub fn laws_hold()
    ensures { AllLaws }
{}
