// Each hypothesis of `sensors` is needed: eight pairs of texts, computed from their bytes to the lamp. Theorems only, in specs/.
#![tactic(auto)]
