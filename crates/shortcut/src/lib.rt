// Theorems only: the quick question on one trace (document 02, §5). Full: on every file that the check accepts it
// answers as the full question. Read has which bytes are read; Strings and Same: two inputs of one length that are
// alike on them get the same answer, refusals and places included. Stands on `quick`, and on `ignored` for laws.
// The rules in words: docs/FORMAT.md, "One trace, quickly".
#![tactic(auto)]
