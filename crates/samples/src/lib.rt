// No code: the definitions of the lexer and the grammar are held to the reference's answers in specs/Samples.
#![tactic(auto)]
