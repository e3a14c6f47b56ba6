// From an accepted table and rule on, the calls are the model, whatever events come: definitions and laws only, in specs/.
#![tactic(auto)]
