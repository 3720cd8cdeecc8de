// What is printed for the bytes of an input, and that a run fed in any pieces says it: definitions and theorems, no code.
#![tactic(auto)]
