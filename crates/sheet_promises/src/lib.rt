// What is promised of the calls on sheets as they stand: theorems only, in specs/.
#![tactic(auto)]
