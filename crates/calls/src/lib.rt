// No code: what a call is, what is known of its arguments, and how something is said of every call, in specs/.
#![tactic(auto)]
