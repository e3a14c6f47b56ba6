// What is promised of the calls as they stand: theorems only, in specs/.
#![tactic(auto)]
