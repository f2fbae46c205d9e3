// Walks over a file and a record give the tables that the record's lookups index into.
#![tactic(auto)]

ghost use Rattle.record_walks.specs.Walks.{Laws};

// The claims of `specs/Walks.antt` hold. Empty body: the contract makes the checker prove them.
pub fn laws_hold()
    ensures { Laws }
{}
