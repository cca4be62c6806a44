// No code: the laws stand in specs/, one file for each subject.
#![tactic(auto)]
