// Nothing runs here: `specs/Demands` states the demands of the papers as theorems about what the operations leave.
#![tactic(auto)]
