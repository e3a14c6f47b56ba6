// The paper's marked examples, computed from their bytes to the lamp: theorems only, in specs/.
#![tactic(auto)]
