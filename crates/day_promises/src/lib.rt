// What is promised of the calls of a day sheet as they stand: that their contracts leave no choice, and ask nothing of what is handed in; and how long a sheet's text can be; in specs/.
#![tactic(auto)]
