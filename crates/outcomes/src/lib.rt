// That each public function of the libraries has one outcome: definitions and theorems. There is no code here.
#![tactic(auto)]
