// What the minutes of a day mean, from the texts on: each line of the sheet by the runs, the events that were not received among those that count.
#![tactic(auto)]
