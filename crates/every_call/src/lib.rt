// What is said of every public call, the eight of the letter and the four of the requests. It holds no code.
#![tactic(auto)]
