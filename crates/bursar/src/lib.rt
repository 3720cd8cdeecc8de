// The bursar's sentence: definitions and theorems about runs of judged calls. There is no code here.
#![tactic(auto)]
