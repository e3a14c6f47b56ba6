// What a closing verdict means, from the texts on: the last verdict of the runs, and finite-trace logic over the events since the last restart.
#![tactic(auto)]
