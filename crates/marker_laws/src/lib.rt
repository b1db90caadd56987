// No code: what follows of the marker entry's answer for every line. It stands apart so that a check of `marker` is short.
#![tactic(auto)]
