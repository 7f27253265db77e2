// Nothing runs here: `specs/` holds the definitions and theorems that the other crates cite.
#![tactic(auto)]
