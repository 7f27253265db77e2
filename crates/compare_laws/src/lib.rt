// Nothing runs here: `specs/` holds Compare's state, its invariant and the laws of its steps, which the code above cites.
#![tactic(auto)]
