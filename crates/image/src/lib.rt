// No code: what the bytes of an image say, and what image a list of sections makes, stand in specs/.
#![tactic(auto)]
