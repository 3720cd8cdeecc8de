// That a judged call changes no other byte: definitions and theorems. There is no code here.
#![tactic(auto)]
