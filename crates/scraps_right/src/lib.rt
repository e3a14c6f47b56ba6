// A log that comes in scraps, beside the whole log and line by line: however it is cut, every verdict, the refusal with its place and the monitor in the end are the same.
#![tactic(auto)]
