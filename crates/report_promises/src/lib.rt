// What is promised of a report's text: what is written is read back, and a text that is no report is refused at the first byte that can't be right. There is no code here.
#![tactic(auto)]
