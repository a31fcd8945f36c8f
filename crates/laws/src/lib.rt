// Laws of the definitions that code cites, and no theorem of definitions: a table that was read holds the rows that
// were read, how many digits a number has, texts in an output, and which numbers a refusal has. Apart from definitions,
// so that a check of a definition goes without them. There is no code here. Assumes nothing.
#![tactic(auto)]
