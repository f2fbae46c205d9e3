// Document 02 as definitions, in `specs/`, above those of document 01. Empty body: the contract makes the checker prove the claims.
#![tactic(auto)]

ghost use Rattle.requests.specs.Claims.{AllClaims};

// Every claim of `specs/Claims.antt` holds, for any hash.
pub fn claims_hold()
    ensures { AllClaims }
{}
