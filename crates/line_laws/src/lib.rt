// No code: what follows of the line entry's answer for every line. It stands apart so that a check of `line` is short.
#![tactic(auto)]
