// What is promised of the check of reports: a report is accepted exactly if it is right, by the meaning's own records. No code.
#![tactic(auto)]
