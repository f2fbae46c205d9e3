// Document 01 as definitions, in `specs/`. Empty body: the contract makes the checker prove what is claimed of them.
#![tactic(auto)]

ghost use Rattle.format.specs.Claims.{AllClaims};

// Every claim of `specs/Claims.antt` holds, for any hash.
pub fn claims_hold()
    ensures { AllClaims }
{}
