// A better sensor never hurts, and neither does a smaller table: theorems only, in specs/.
#![tactic(auto)]
