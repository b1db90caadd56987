// No code: what the check passes is what document 01's stack rules allow, and the program of exactly one tree. It stands apart so that a check of
// `program_check`, and of each of its wrong programs, is short.
#![tactic(auto)]
