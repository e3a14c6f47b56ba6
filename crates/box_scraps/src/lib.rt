// A box that takes a log in scraps: from its opening on its functions write and answer what the calls on scraps do, and so what the runs of the plant dictate.
#![tactic(auto)]
