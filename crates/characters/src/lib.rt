// No code: a lexer over characters as a definition, and the lexer over bytes held to it, in specs.
#![tactic(auto)]
