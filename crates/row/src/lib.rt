// The actions that the views of a region name: definitions and laws. There is no code here.
#![tactic(auto)]
