// No code: what is proved of versions beside the contracts. It stands apart so that a check of `version` is short.
#![tactic(auto)]
