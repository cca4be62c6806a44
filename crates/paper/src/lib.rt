// Document 01 said a second time, for those who check it. There is no code here.
#![tactic(auto)]
