// What is promised of the box, the store and the day of a C program: theorems only, in specs/.
#![tactic(auto)]
