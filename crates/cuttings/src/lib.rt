// What is promised of logs that come in scraps: however the bytes are cut, they are answered as if they had come at once.
#![tactic(auto)]
