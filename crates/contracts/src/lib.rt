// No code: what the public functions' own contracts say, in specs/.
#![tactic(auto)]
