// What is promised of the fixed machine: it answers as stepping does on every log of accepted events, each of its rows is needed, there is one such machine and
// none smaller, and the call has no choice. No code.
#![tactic(auto)]
